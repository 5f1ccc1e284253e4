// The image of weights in lent bytes, the highest byte of a number first; weights that are added to those that stand there. The image of rows is made by
// `out_rows`, by the definitions that stand here.
#![tactic(auto)]

ghost use Rattle.std.specs.Prelude.{◌≡◌, [], ℕ, ◌+◌, ◌≤◌, length, take, drop};
ghost use Rattle.std.proofs.lemmas.List.Edits.{sets};
ghost use Rattle.rules.specs.Calls.{bytes, filled, image_by};
ghost use Rattle.rules.specs.Decoded.{number_in, weight_in};
ghost use Rattle.rules.specs.Plain.{capped};
ghost use Rattle.out_images.specs.Rows.{image_of_words, image_of_sums, Weighs};

// Sets the first n bytes to 0.
// Lent memory may be longer than it must be, and what is past the first bytes stays (filled): so a slice with a count or a bound, and no array.
pub fn clear(out: &mut [u8], n: usize)
    requires { n ≤ length out.old }
    ensures { out.new ≡ filled n [] out.old }
{
    out[..n].fill(0);
}

// The number x in eight bytes from `at` on.
fn put_word(out: &mut [u8], at: usize, x: u64)
    requires { at + 8 ≤ length out.old }
    ensures { out.new ≡ sets out.old at (bytes 8 x) }
{
    out[at..at + 8].copy_from_slice(&x.to_be_bytes());
}

// The first 5,040 weights, in eight bytes each.
pub fn put_weights(weights: &[u64], out: &mut [u8])
    requires { (5040 ≤ length weights.now) × (40320 ≤ length out.old) }
    ensures out_after { out.new ≡ filled 40320 (image_of_words (take 5040 weights.now)) out.old }
    ensures by_index { (weight : ℕ → ℕ → ℕ) → Weighs weight weights.now → out.new ≡ filled 40320 (image_by weight) out.old }
{
    for i in 0..5040 {
        put_word(out, i * 8, weights[i]);
    }
}

// The number in the eight bytes from `at` on.
fn get_word(out: &[u8], at: usize) -> u64
    requires { at + 8 ≤ length out.now }
    ensures { result ≡ number_in (take 8 (drop at out.now)) }
{
    let word = [
        out[at],
        out[at + 1],
        out[at + 2],
        out[at + 3],
        out[at + 4],
        out[at + 5],
        out[at + 6],
        out[at + 7],
    ];
    u64::from_be_bytes(word)
}

// Adds the first 5,040 weights to those that stand in the lent bytes, eight bytes each; a sum that passes 2^64 − 1 becomes 2^64 − 1.
pub fn add_weights(weights: &[u64], out: &mut [u8])
    requires { (5040 ≤ length weights.now) × (40320 ≤ length out.old) }
    ensures out_after { out.new ≡ filled 40320 (image_of_sums 5040 weights.now out.old) out.old }
    ensures by_index { (weight : ℕ → ℕ → ℕ) → Weighs weight weights.now
        → out.new ≡ filled 40320 (image_by (λ k t. capped (weight_in out.old k t + weight k t))) out.old }
{
    for w in 0..5040 {
        let lent = get_word(out, w * 8);
        put_word(out, w * 8, lent.saturating_add(weights[w]));
    }
}
