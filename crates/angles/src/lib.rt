// Angles as signed multiples of pi, kept modulo 131,072: two turns of units, or one turn of half
// units. It knows numbers alone.
#![tactic(auto)]

ghost use Rattle.std.specs.Prelude.{◌≡◌, ◌*◌, ◌/◌, ◌≤◌};
ghost use Rattle.angles.specs.Units.{is_over, most_times, angle_in, pi_in, reduced_of, signed_of};

// In what an angle counts: units, or the half units of a common phase.
#[derive(Clone, Copy)]
pub enum Scale {
    Units,
    Halves,
}

// minus k * pi / over
#[derive(Clone, Copy)]
pub struct Multiple {
    pub minus: bool,
    pub k: u32,
    pub over: u32,
}

fn pi(scale: Scale) -> u32
    ensures { result ≡ pi_in scale }
{
    match scale {
        Scale::Units => 32768,
        Scale::Halves => 65536,
    }
}

// The largest k.
pub fn most_times(scale: Scale) -> u32
    ensures { result ≡ most_times scale }
{
    match scale {
        Scale::Units => 65535,
        Scale::Halves => 131071,
    }
}

impl Multiple {
    // -8,192 units for -pi/4. Whole turns are taken away only when it has been divided: a turn over 2 is no whole turn.
    fn signed(self, scale: Scale) -> i64
        ensures { result ≡ signed_of self.minus (self.k * (pi_in scale / self.over)) }
    {
        if self.over == 0 {
            return 0;
        }
        let each = pi(scale) / self.over;
        times(self.minus, self.k, each)
    }

    // 122,880 units for -pi/4
    pub fn count(self, scale: Scale) -> u32
        ensures { result ≡ angle_in scale self.minus self.k self.over }
    {
        reduced(self.signed(scale))
    }
}

// k times each with its sign. Any k shall do, so it takes up to 48 bits and the sign.
fn times(minus: bool, k: u32, each: u32) -> i64
    requires { each ≤ 65536 }
    ensures { result ≡ signed_of minus (k * each) }
{
    let size = k as i64 * each as i64;
    if minus {
        return -size;
    }
    size
}

// To 0 to 131,071, by multiples of 131,072. A remainder has the sign of what is divided, so a negative one lacks 131,072.
fn reduced(count: i64) -> u32
    ensures { result ≡ reduced_of count }
{
    let rest = count % 131072;
    let is_negative = rest < 0;
    if is_negative {
        return (rest + 131072) as u32;
    }
    rest as u32
}

// Whether it is a power of two from 1 to pi: these are the divisors of pi.
pub fn is_over(scale: Scale, d: u32) -> bool
    ensures { result ≡ is_over scale d }
{
    if d == 0 {
        return false;
    }
    pi(scale) % d == 0
}
