use crate::strips::Written;
use crate::tiles::Tiles;
use cache::Counts;
use picture::Size;
use std::fmt;

/// What was read and written, and how often what was asked.
#[derive(Drop)]
pub struct Summary<'a> {
    pub ending: &'a str,
    pub before: Size,
    pub after: Size,
    pub file: Written,
    pub tiles: Tiles,
    pub prepares: u64,
    pub upper: Counts,
    pub lower: Counts,
}

impl<'a> Summary<'a> {
    fn sizes<W: fmt::Write>(&self, f: &mut fmt::Formatter<W>) -> fmt::Result {
        let Size {
            width,
            height,
            maxval,
            ..
        } = self.before;
        writeln!(f, "picture: {width} by {height}, maxval {maxval}")?;
        let Size { width, height, .. } = self.after;
        writeln!(f, "turned and shrunk: {width} by {height}")
    }

    fn file<W: fmt::Write>(&self, f: &mut fmt::Formatter<W>) -> fmt::Result {
        let ending = self.ending;
        let Written {
            bytes,
            strips,
            rows,
            height,
            read_back,
        } = self.file;
        match read_back {
            Ok(read_back) => {
                writeln!(
                    f,
                    "turned.{ending}: {bytes} bytes, {rows} rows in {strips} strips"
                )?;
                writeln!(f, "read back: {read_back} of {height} rows agree")
            }
            Err(why) => writeln!(
                f,
                "turned.{ending}: abandoned at row {rows} of {height}, behind {bytes} bytes in {strips} strips: {why}"
            ),
        }
    }

    fn tiles<W: fmt::Write>(&self, f: &mut fmt::Formatter<W>) -> fmt::Result {
        let written = self.tiles.written;
        let all = self.tiles.all;
        let bytes = self.tiles.bytes;
        writeln!(f, "tiles: {written} of {all} written, {bytes} bytes")?;
        if written < all {
            let left_out = self.tiles.left_out.as_str();
            write!(f, "left out:\n{left_out}")?;
        }
        Ok(())
    }
}

/// Writes what a cache has counted.
fn cache<W: fmt::Write>(f: &mut fmt::Formatter<W>, name: &str, counts: Counts) -> fmt::Result {
    let Counts {
        hits,
        fetches,
        bypasses,
    } = counts;
    writeln!(
        f,
        "{name} cache: {hits} hits, {fetches} fetches, {bypasses} bypasses"
    )
}

impl<'a> fmt::Display for Summary<'a> {
    fn fmt<W: fmt::Write>(&self, f: &mut fmt::Formatter<W>) -> fmt::Result {
        self.sizes(f)?;
        self.file(f)?;
        self.tiles(f)?;
        let prepares = self.prepares;
        writeln!(f, "prepares: {prepares}")?;
        cache(f, "upper", self.upper)?;
        cache(f, "lower", self.lower)
    }
}
