// Numbers of a line.
ghost use Rattle.std.specs.Prelude.{◌≡◌};
ghost use Rattle.mt_protocol.specs.Frames.{are_digits, capped, is_digit, is_spelled, number, value_onto};

// The greatest number.
const GREATEST: usize = 4_294_967_295;

/// One to ten digits without a leading zero, at most 4,294,967,295.
#[tactic(auto, unfolding(crate::specs::Frames::number))]
pub fn number(bytes: &[u8]) -> Option<usize>
    ensures { result ≡ number bytes.now }
{
    if is_spelled(bytes) {
        value(bytes)
    } else {
        None
    }
}

fn is_spelled(bytes: &[u8]) -> bool
    ensures { result ≡ is_spelled bytes.now }
{
    are_digits(bytes)
        && !bytes.is_empty()
        && bytes.len() <= 10
        && (bytes.len() == 1 || bytes[0] > b'0')
}

fn is_digit(byte: u8) -> bool
    ensures { result ≡ is_digit byte }
{
    byte >= b'0' && byte <= b'9'
}

fn are_digits(bytes: &[u8]) -> bool
    ensures { result ≡ are_digits bytes.now }
{
    for byte in bytes {
        if !is_digit(*byte) {
            return false;
        }
    }
    true
}

// The value of digits, where it is not past the greatest.
fn value(digits: &[u8]) -> Option<usize>
    ensures { result ≡ capped (value_onto 0 digits.now) }
{
    let mut value = 0;
    for digit in digits {
        value = value * 10 + usize::from(digit.saturating_sub(b'0'));
        if value > GREATEST {
            return None;
        }
    }
    Some(value)
}
