// The outside pieces that a cut leaves, one by one.
ghost use Rattle.std.specs.Prelude.{◌≡◌, ◌+◌, ◌-◌, ◌*◌, ◌^◌, ◌≤◌, ◌<◌};
ghost use Rattle.cut.specs.Cut.{outside_of, outs};

// The outside pieces of a piece that are still to come, by rising train number, where `common` is what the piece and an entry have in common:
// `lost` has what the trains from `train` on lose, train `train`'s in its low byte.
#[derive(Drop)]
pub struct Outsides {
    common: u64,
    lost: u64,
    train: u64,
    ghost within: { common + lost * 256 ^ train < 2 ^ 64 },
}

impl Outsides {
    ghost use Rattle.cut.specs.Ahead.{ahead};

    // All the outside pieces of p by its common part.
    #[inline]
    pub fn of(p: u64, common: u64) -> Outsides
        requires { common ≤ p }
        ensures { ahead result ≡ outs 8 0 common (p - common) }
    {
        Outsides {
            common,
            lost: p - common,
            train: 0,
        }
    }
}

impl Iterator for Outsides {
    ghost use Rattle.std.specs.Iterator.{YieldsFirst, item_count};
    ghost use Rattle.cut.specs.Ahead.{ahead};

    type Item = u64;

    ghost next_gives = { YieldsFirst ahead };

    ghost remaining = { item_count ahead };

    // A train that loses no delay leaves no outside piece.
    #[inline]
    fn next(&mut self) -> Option<u64> {
        while self.lost != 0 {
            let lost = self.lost;
            let train = self.train;
            self.lost /= 256;
            self.train += 1;
            if lost % 256 != 0 {
                return Some(outside(self.common, lost, train));
            }
        }
        None
    }
}

// The outside piece of train k, by the common part c: `lost` has what train k and those after it lose, train k's in its low byte.
fn outside(c: u64, lost: u64, k: u64) -> u64
    requires { (k < 8) × (c + lost * 256 ^ k < 2 ^ 64) }
    ensures { result ≡ outside_of k c lost }
{
    let shift = 8 * k;
    c + (lost << shift) - (c & (255 << shift))
}
