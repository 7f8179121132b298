// The table of the parities that bear a rotation, ascending, each with the sum of its angles.
ghost use Rattle.std.specs.Prelude.{◌≡◌, ◌+◌, ◌≤◌, ◌<◌, length, set, nat_le};
ghost use Rattle.std.specs.List.{position};
ghost use Rattle.std.specs.Result.{is_err};
ghost use Rattle.gates.specs.Limits.{most_parities};
ghost use Rattle.table.specs.Table.{tabled, empty, added, added_to, moved_in, terms_in};

use gates::job::Job;

// The parities and their sums are two lists: laying changes the parities, as columns, and only reads the sums.
#[derive(Clone, Copy)]
pub struct Sums {
    pub parity: [u32; Job::PARITIES],
    pub sum: [u32; Job::PARITIES],
    pub len: usize,
}

// A parity would be the 257th.
#[derive(Clone, Copy)]
pub struct Full;

// The first that is p or more: where p stands, or is to stand, in an ascending list.
fn rank(xs: &[u32], p: u32) -> Option<usize>
    ensures { result ≡ position (λ x. nat_le p x) xs.now }
{
    xs.iter().position(|&x| p <= x)
}

// v moves in at k among the first n.
fn moved_in(xs: &mut [u32], k: usize, n: usize, v: u32)
    requires { (k ≤ n) × (n < length xs.old) }
    ensures { xs.new ≡ moved_in xs.old k n v }
{
    xs[k..n + 1].rotate_right(1);
    xs[k] = v;
}

impl Sums {
    pub fn none() -> Sums
        ensures { result ≡ empty }
    {
        Sums {
            parity: [0; Job::PARITIES],
            sum: [0; Job::PARITIES],
            len: 0,
        }
    }

    // The angle a goes to the sum of parity p. The table changes in place: to copy its 2 KB for each
    // rotation would cost more than all the rest.
    pub fn add(&mut self, p: u32, a: u32) -> Result<(), Full>
        ensures { added self.new (is_err result) ≡ added_to self.old p a }
    {
        if Job::PARITIES < self.len {
            return Err(Full);
        }
        let k = rank(&self.parity[..self.len], p).unwrap_or(self.len);
        if k < self.len && self.parity[k] == p {
            self.sum[k] = (self.sum[k] % 65536 + a % 65536) % 65536;
            return Ok(());
        }
        if self.len == Job::PARITIES {
            return Err(Full);
        }
        moved_in(&mut self.parity, k, self.len, p);
        moved_in(&mut self.sum, k, self.len, a % 65536);
        self.len += 1;
        Ok(())
    }

    // One entry more.
    fn push(&mut self, p: u32, a: u32)
        requires { self.old.len < most_parities }
        ensures { self.new ≡ tabled (set self.old.parity self.old.len p) (set self.old.sum self.old.len a) (self.old.len + 1) }
    {
        self.parity[self.len] = p;
        self.sum[self.len] = a;
        self.len += 1;
    }

    // The terms: the entries whose sum is not 0.
    pub fn terms(self) -> Sums
        ensures { result ≡ terms_in self }
    {
        let n = self.len.min(Job::PARITIES);
        let mut terms = Sums::none();
        for (&p, &a) in self.parity[..n].iter().zip(&self.sum[..n]) {
            let is_kept = a != 0;
            if is_kept {
                terms.push(p, a);
            }
        }
        terms
    }
}
