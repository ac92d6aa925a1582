//! Lines of text: a letter, then numbers in decimal.
ghost use Rattle.std.specs.Prelude.{ℕ, ◌≤◌, ◌∷◌, length};
ghost use Rattle.std.specs.Fmt.{signed_decimal};
ghost use Rattle.hourbook.specs.Text.{line_of};

use crate::book::sink::Sink;
use itoa::Buffer;

// A space, then the number.
#[inline(always)]
fn put_field<S: Sink>(sink: &mut S, number: i64)
    requires { S.has_room sink.old (length (32 ∷ signed_decimal number)) }
    ensures { S.took sink.old (32 ∷ signed_decimal number) sink.new }
{
    sink.put(b" ");
    sink.put(Buffer::new().format(number).as_bytes());
}

// A line of at most eight fields has at most 200 bytes.
#[inline(always)]
pub(crate) fn put_line<S: Sink>(sink: &mut S, letter: u8, fields: &[i64])
    requires { S.has_room sink.old (length (line_of letter fields.now)) }
    ensures line { S.took sink.old (line_of letter fields.now) sink.new }
    ensures short { length fields.now ≤ 8 → length (line_of letter fields.now) ≤ 200 }
{
    sink.put(&[letter]);
    for number in fields {
        put_field(sink, *number);
    }
    sink.put(b"\n");
}
