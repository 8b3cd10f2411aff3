//! A number in decimal and the byte behind it.

ghost use Rattle.std.specs.Prelude.{◌≡◌, ◌≢◌, ◌++◌, ℕ, List, false, IfSome, IfNone};
ghost use Rattle.std.specs.Char.{is_ascii_digit};
ghost use Rattle.ps_run_schedules.specs.Texts.{IsUpTo, field_of};

/// The number from 1 to `most` with whose digits and then `ending` the bytes begin, and what stands
/// behind that; none where they begin so with no number. A number has no leading zeros.
pub(crate) fn field<'a>(bytes: &'a [u8], most: u32, ending: u8) -> Option<(u32, &'a [u8])>
    requires { is_ascii_digit ending ≡ false }
    ensures number { IfSome result (λ found. IsUpTo most found.0) }
    ensures found { IfSome result
        (λ found. bytes.now ≡ field_of ending found.0 ++ found.1.now) }
    ensures none { IfNone result
        ((number : ℕ) → IsUpTo most number → (rest : List ℕ)
        → bytes.now ≢ field_of ending number ++ rest) }
{
    let mut number = 0u64;
    for place in 0..bytes.len() {
        let byte = bytes[place];
        if !byte.is_ascii_digit() {
            if byte != ending || place == 0 {
                return None;
            }
            return Some((number as u32, &bytes[place + 1..]));
        }
        number = number * 10 + u64::from(byte - b'0');
        if number == 0 || number > u64::from(most) {
            return None;
        }
    }
    None
}
