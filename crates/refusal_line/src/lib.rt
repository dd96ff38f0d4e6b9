// The line that the program writes for a text that is refused.
#![tactic(auto)]

ghost use Rattle.std.specs.Prelude.{◌≡◌, length};
ghost use Rattle.byte.specs.Put.{put};
ghost use Rattle.refusal_line.specs.Refusal.{refusal_line};

// The line of a refusal, in front of a buffer that has room for it whatever the number is.
pub fn refusal_into(number: u64, out: &mut [u8; 13795]) -> usize
    ensures value { result ≡ length (refusal_line number) }
    ensures out_after { out.new ≡ put out.old 0 (refusal_line number) }
{
    let at = byte::copy(b"refused ", out, 0);
    let end = decimal::put_decimal(number, out, at);
    byte::put(out, end, 10)
}
