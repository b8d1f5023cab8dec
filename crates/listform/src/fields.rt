// Fields read again, and bytes written with their padding.
ghost use Rattle.std.specs.Prelude.{◌≡◌, ◌+◌, ◌-◌, ◌≤◌, not, length, if◌then◌else◌, ◌==◌};
ghost use Rattle.source.specs.Bytes.{part, val};
ghost use Rattle.source.specs.Content.{meaning};
ghost use Rattle.pen.specs.Pen.{Wrote};
ghost use Rattle.property.specs.Fields.{padded, filled};
ghost use Rattle.listform.specs.Forms.{number_there};

use pen::Pen;
use scan::Number;
use source::Source;

// The four bytes at `place` as a number.
pub fn number_at<S: Source>(source: &mut S, place: usize) -> u32
    requires { place + 4 ≤ length (meaning (S.Source.content source.old)) }
    ensures same { S.Source.content source.new ≡ S.Source.content source.old }
    ensures value { result ≡ number_there (meaning (S.Source.content source.old)) place }
{
    u32::at(source, place).unwrap()
}

// Yes or no at `place`, as 1 or 0.
pub fn flag_at<S: Source>(source: &mut S, place: usize) -> u16
    requires { place + 2 ≤ length (meaning (S.Source.content source.old)) }
    ensures same { S.Source.content source.new ≡ S.Source.content source.old }
    ensures value { result ≡ (if not (val (part (meaning (S.Source.content source.old)) place 2) == 0) then 1 else 0) }
{
    u16::at(source, place).unwrap().min(1)
}

// How many bytes fill `size` up to a multiple of four; beside `padded`, which asks that sizes are small.
pub fn gap(size: usize) -> usize
    ensures { result ≡ padded size - size }
{
    (4 - size % 4) % 4
}

// Writes bytes and zeros for their padding.
pub fn pen_filled(bytes: &[u8], pen: &mut Pen<'_>)
    ensures { Wrote pen.old (filled bytes.now) pen.new }
{
    pen.put(bytes);
    pen.put_zeros(gap(bytes.len()));
}

// Writes the `size` bytes of the source from `place` on and zeros for their padding.
pub fn pen_part<S: Source>(source: &mut S, place: usize, size: usize, pen: &mut Pen<'_>)
    requires { place + size ≤ length (meaning (S.Source.content source.old)) }
    ensures same { S.Source.content source.new ≡ S.Source.content source.old }
    ensures value { Wrote pen.old (filled (part (meaning (S.Source.content source.old)) place size)) pen.new }
{
    pen.put_from(source, place, size);
    pen.put_zeros(gap(size));
}
