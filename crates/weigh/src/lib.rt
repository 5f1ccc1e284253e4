// The weights of packed covers, and raising the weights that have arrived.
#![tactic(auto)]

ghost use Rattle.std.specs.Prelude.{◌≡◌, ◌+◌, ◌*◌, ◌%◌, ◌^◌, ◌<◌, ◌≤◌, slice_index, slice_set};
ghost use Rattle.weigh.specs.Weigh.{set_weight, weight_of, brought_of, Small};

// The weight of the delays of train j whose bits x has.
fn set_weight(tables: &[u64], j: u64, x: u64) -> u64
    requires { Small tables.now × (j < 8) }
    ensures { result ≡ set_weight tables.now (112 + j * 8) 8 x }
{
    let first = words::WEIGHTS + j * 8;
    let mut left = x;
    let mut sum = 0;
    for i in first..first + 8 {
        if left % 2 == 1 {
            sum += words::at(tables, i);
        }
        left /= 2;
    }
    sum
}

// The weight of a packed cover: the product of its sets' weights, train by train.
// A byte after the other: `weight_of` is told by division, and the bytes of `to_le_bytes` would first have to be shown to be those.
fn cover_weight(tables: &[u64], c: u64) -> u64
    requires { Small tables.now }
    ensures { result ≡ weight_of tables.now c }
{
    let n = words::at(tables, words::TRAINS);
    let mut left = c;
    let mut product = 1;
    for j in 0..n {
        let w = set_weight(tables, j, left % 256);
        product *= w;
        left /= 256;
    }
    product
}

// The weights of the covers together.
pub fn brought(tables: &[u64], covers: &[u64]) -> u64
    requires { Small tables.now }
    ensures { result ≡ brought_of tables.now covers.now }
{
    let mut sum = 0u64;
    for &c in covers {
        let w = cover_weight(tables, c);
        sum = sum.wrapping_add(w);
    }
    sum
}

// The weight at i is raised by x, where the list has that place.
pub fn raise(weights: &mut [u64], i: u64, x: u64)
    ensures { weights.new ≡ slice_set weights.old i ((slice_index weights.old i + x) % 2 ^ 64) }
{
    let j = i as usize;
    if j < weights.len() {
        let was = weights[j];
        weights[j] = was.wrapping_add(x);
    }
}
