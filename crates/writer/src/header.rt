ghost use Rattle.std.specs.Prelude.{◌≡◌, ℕ, ◌+◌, ◌≤◌, [], ◌∷◌, length, decimal};
ghost use Rattle.writer.specs.File.{field, header};
ghost use Rattle.writer.specs.Calls.{over};

use picture::Size;

// Numbers are printed here: a formatter prints into a buffer of its own, and can't say beforehand how long a header is.

/// How many digits a number has.
fn digits(n: u32) -> usize
    ensures value { result ≡ length (decimal n) }
    ensures small { result ≤ 10 }
{
    if n < 10 { 1 } else { digits(n / 10) + 1 }
}

/// Writes a number in decimal at the start, and answers how many bytes it has.
fn put_number(out: &mut [u8], n: u32) -> usize
    requires { length (decimal n) ≤ length out.old }
    ensures end { result ≡ length (decimal n) }
    ensures out { out.new ≡ over (decimal n) out.old }
{
    if n < 10 {
        out[0] = b'0' + n as u8;
        1
    } else {
        let end = put_number(out, n / 10);
        out[end] = b'0' + (n % 10) as u8;
        end + 1
    }
}

/// Writes a number in decimal and a byte behind it, and answers how many bytes they have.
fn put_field(out: &mut [u8], n: u32, behind: u8) -> usize
    requires { length (decimal n) + 1 ≤ length out.old }
    ensures end { result ≡ length (decimal n) + 1 }
    ensures few { result ≤ 11 }
    ensures out { out.new ≡ over (field n behind) out.old }
{
    let end = put_number(out, n);
    out[end] = behind;
    end + 1
}

/// Writes the first line, and answers how many bytes it has.
// the mark is a byte, as in `RowWriter`: nothing else of a header depends on the kind
fn put_mark(out: &mut [u8], mark: u8) -> usize
    requires { 3 ≤ length out.old }
    ensures end { result ≡ 3 }
    ensures out { out.new ≡ over (80 ∷ (mark ∷ (10 ∷ []))) out.old }
{
    out[0] = b'P';
    out[1] = mark;
    out[2] = b'\n';
    3
}

/// How many bytes a header has, whatever the mark.
pub(crate) fn header_bytes(size: Size) -> usize
    ensures value { (mark : ℕ) → result ≡ length (header mark size.width size.height size.maxval) }
    ensures small { result ≤ 36 }
{
    digits(size.width) + digits(size.height) + digits(size.maxval as u32) + 6
}

/// Writes a header at the start, and answers how many bytes it has.
pub(crate) fn put_header(out: &mut [u8], mark: u8, size: Size) -> usize
    requires { length (header mark size.width size.height size.maxval) ≤ length out.old }
    ensures end { result ≡ length (header mark size.width size.height size.maxval) }
    ensures out { out.new ≡ over (header mark size.width size.height size.maxval) out.old }
{
    let mut end = put_mark(out, mark);
    end += put_field(&mut out[end..], size.width, b' ');
    end += put_field(&mut out[end..], size.height, b'\n');
    end + put_field(&mut out[end..], size.maxval as u32, b'\n')
}
