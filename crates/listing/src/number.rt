// A number as text: its decimal digits, in ASCII.
ghost use Rattle.std.specs.Prelude.{◌≡◌, ◌<◌, ◌≤◌, length, take, drop};
ghost use Rattle.listing.specs.Digits.{IsDigitCount, IsPrefixLen, hex_digit_ascii, last_digits};

// Puts n's decimal digits at the start of out, and answers how many there are.
pub fn decimal(n: u64, out: &mut [u8; 20]) -> usize
    ensures in_bounds { IsPrefixLen result out.new }
    ensures len { IsDigitCount 10 1 n result }
    ensures digits { take result out.new ≡ last_digits 10 result n }
    ensures rest { drop result out.new ≡ drop result out.old }
{
    let k = digit_count(n);
    write_digits(n, k, out);
    k
}

// How many digits n takes: 0 takes one, as 1 does.
fn digit_count(n: u64) -> usize
    ensures { IsDigitCount 10 1 n result }
{
    n.max(1).ilog10() as usize + 1
}

// Puts the last k digits of n at the start of out.
fn write_digits(n: u64, k: usize, out: &mut [u8])
    requires in_bounds { k ≤ length out.old }
    ensures digits { take k out.new ≡ last_digits 10 k n }
    ensures rest { drop k out.new ≡ drop k out.old }
{
    let mut rest = n;
    for i in (0..k).rev() {
        out[i] = digit_to_ascii(rest % 10);
        rest /= 10;
    }
}

fn digit_to_ascii(d: u64) -> u8
    requires { d < 10 }
    ensures { result ≡ hex_digit_ascii d }
{
    b'0' + d as u8
}
