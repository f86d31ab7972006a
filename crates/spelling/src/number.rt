// Decimal numbers.
ghost use Rattle.std.specs.Prelude.{◌≡◌, ◌≤◌, IfSome};
ghost use Rattle.spelling.specs.Lists.{and_then};
ghost use Rattle.spelling.specs.Numbers.{number_read, longer as longer_by, digits_from};

// A number with one digit more; none where there was none, the octet is no digit, or the number gets too large.
fn longer(n: Option<u32>, octet: u8, most: u32) -> Option<u32>
    ensures { result ≡ and_then n (λ m. longer_by most m octet) }
{
    if !octet.is_ascii_digit() {
        return None;
    }
    let more = n?.checked_mul(10)?.checked_add(u32::from(octet - b'0'))?;
    (more <= most).then_some(more)
}

fn read_digits(text: &[u8], most: u32) -> Option<u32>
    ensures value { result ≡ digits_from most 0 text.now }
    ensures bound { IfSome result (λ n. n ≤ most) }
{
    text.iter().fold(Some(0), |n, c| longer(n, *c, most))
}

// A number of one to nine decimal digits that is not above the most.
pub fn read_number(text: &[u8], most: u32) -> Option<u32>
    ensures value { result ≡ number_read most text.now }
    ensures bound { IfSome result (λ n. n ≤ most) }
{
    if text.is_empty() || text.len() > 9 {
        return None;
    }
    read_digits(text, most)
}
