// The columns of an island's terms, one number each; 0 once struck off.
ghost use Rattle.std.specs.Prelude.{◌≡◌, get_or};
ghost use Rattle.sets.specs.Columns.{turn};
ghost use Rattle.columns.specs.Turning.{turn_all};

// What stands at k; 0 past the end.
pub fn entry(xs: &[u32], k: usize) -> u32
    ensures { result ≡ get_or xs.now k 0 }
{
    xs.get(k).copied().unwrap_or(0)
}

pub fn turned(x: u32, control: usize, target: usize) -> u32
    ensures { result ≡ turn control target x }
{
    if sets::holds(x, target) {
        x ^ sets::only(control)
    } else {
        x
    }
}

pub fn turn_all(cols: &mut [u32], control: usize, target: usize)
    ensures { cols.new ≡ turn_all control target cols.old }
{
    for x in cols.iter_mut() {
        *x = turned(*x, control, target);
    }
}
