//! The blur. Each sample becomes a sum: its taps, which are the samples around it in its row or its column, each times its
//! weight, added up in the order of the weights. The sums of samples side by side are made in blocks of 32, since 32 sums stay in
//! registers while all weights are added, and are worked on in vector instructions; in blocks of 16 where they are fewer than 32.
//! Near an edge, where taps are repeated, sums are made one at a time across, and a whole row at a time down.
#![tactic(auto)]

ghost use Rattle.std.specs.Prelude.{◌≡◌, ◌+◌, ◌-◌, ◌*◌, ◌<◌, ◌≤◌, length, get_or};
ghost use Rattle.std.specs.Float.{nan};
ghost use Rattle.lists.specs.Tab.{tabulate};
ghost use Rattle.blur.specs.Blur.{bad_weights, along, repeated, across, down};
ghost use Rattle.blur.specs.Steps.{added, Reach, sums_at};

use samples::{Plane, UNIT};

/// Refusal 2: the weights are not an odd number from 1 to 15, or one is outside of 0.0 to 1.0 or a NaN.
#[tactic(auto, using(std::proofs::lemmas::Bool::Decides::nat_tests), unfolding(crate::specs::Blur::bad_weights))]
pub fn bad_weights(weights: &[f32]) -> bool
    ensures { result ≡ bad_weights weights.now }
{
    weights.len() % 2 == 0 || 15 < weights.len() || !UNIT.hold(weights)
}

/// Adds to each sum the sample at its place times `weight`. The sums are gone over by their index: a proof knows what a loop over
/// `iter_mut().zip(samples)` leaves only by its length.
fn add_weighted(sums: &mut [f32], samples: &[f32], weight: f32)
    requires { length samples.now ≡ length sums.old }
    ensures { sums.new ≡ added sums.old (λ x. get_or samples.now x nan) weight }
{
    for (x, sum) in sums.iter_mut().enumerate() {
        *sum += samples[x] * weight;
    }
}

/// Where the taps of sums that stand side by side are: sum x has its taps at `start + x`, `start + step + x`,
/// `start + 2 * step + x`, .. of `img`, one for each weight.
#[derive(Clone, Copy)]
struct Taps<'a> {
    img: &'a [f32],
    start: usize,
    step: usize,
    weights: &'a [f32],
}

impl Taps<'_> {
    /// The sums into `row`, one weight at a time.
    fn sum(self, row: &mut [f32])
        requires { Reach self (length row.old) }
        ensures { row.new ≡ sums_at self.entry (length row.old) }
    {
        let n = row.len();
        row.fill(0.0);
        for (k, &weight) in self.weights.iter().enumerate() {
            let from = k * self.step + self.start;
            add_weighted(row, &self.img[from..from + n], weight);
        }
    }

    /// The sums of a block of `N`. They are added up in an array of their own, which the compiler keeps in registers: sums in `block`
    /// would go to memory and back with each weight.
    fn sum_block<const N: usize>(self, block: &mut [f32])
        requires { (length block.old ≡ N) × Reach self N }
        ensures { block.new ≡ sums_at self.entry N }
    {
        let mut sums = [0.0; N];
        self.sum(&mut sums);
        block.copy_from_slice(&sums);
    }

    /// Any number of sums from `N` on, in blocks of `N`. The last block ends where the row ends. It may lie over a part of the block
    /// before it, whose sums it makes again. This is not inlined: in one function with it `sum` has too few registers, and rows of
    /// fewer than 16 sums take a tenth more time.
    #[inline(never)]
    fn sum_blocks_of<const N: usize>(self, row: &mut [f32])
        requires block { (0 < N) × (N ≤ length row.old) }
        requires reach { Reach self (length row.old) }
        ensures { row.new ≡ sums_at self.entry (length row.old) }
    {
        let n = row.len();
        for next in (0..n).step_by(N) {
            let from = next.min(n - N);
            let start = self.start + from;
            Taps { start, ..self }.sum_block::<N>(&mut row[from..from + N]);
        }
    }

    /// Any number of sums: in blocks of 32, of 16 where they are fewer than 32, and without blocks where they are fewer than 16.
    fn sum_blocks(self, row: &mut [f32])
        requires { Reach self (length row.old) }
        ensures { row.new ≡ sums_at self.entry (length row.old) }
    {
        match row.len() {
            32.. => self.sum_blocks_of::<32>(row),
            16..32 => self.sum_blocks_of::<16>(row),
            _ => self.sum(row),
        }
    }
}

/// The place that lies `r` before `p` in a line of `n`, or else the nearest one of the line.
fn repeated_place(n: usize, r: usize, p: usize) -> usize
    requires { 0 < n }
    ensures { result ≡ repeated n r p }
{
    p.saturating_sub(r).min(n - 1)
}

/// Sample `x` of a row, blurred along the row. Beyond an end of the row the sample at that end is the tap.
fn blur_sample(samples: &[f32], x: usize, weights: &[f32]) -> f32
    requires { x < length samples.now }
    ensures { result ≡ along weights.now (length samples.now) (λ q. get_or samples.now q nan) x }
{
    let n = samples.len();
    let r = weights.len() / 2;
    let mut sum = 0.0;
    for (k, &weight) in weights.iter().enumerate() {
        sum += samples[repeated_place(n, r, x + k)] * weight;
    }
    sum
}

/// The samples of a row from `first` on, one at a time.
fn blur_samples(part: &mut [f32], samples: &[f32], first: usize, weights: &[f32])
    requires { first + length part.old ≤ length samples.now }
    ensures { part.new ≡ tabulate (length part.old) (λ i. along weights.now (length samples.now) (λ x. get_or samples.now x nan) (first + i)) }
{
    for (i, sum) in part.iter_mut().enumerate() {
        *sum = blur_sample(samples, first + i, weights);
    }
}

/// Blurs a row across: the samples near its ends one at a time, those between, which have all their taps in the row, in blocks.
fn blur_row(row: &mut [f32], samples: &[f32], weights: &[f32])
    requires { (length samples.now ≡ length row.old) × (0 < length samples.now) }
    ensures { row.new ≡ tabulate (length row.old) (along weights.now (length row.old) (λ x. get_or samples.now x nan)) }
{
    let n = samples.len();
    let r = weights.len() / 2;
    if n <= 2 * r {
        blur_samples(row, samples, 0, weights);
        return;
    }
    let end = n - r;
    blur_samples(&mut row[0..r], samples, 0, weights);
    let taps = Taps {
        img: samples,
        start: 0,
        step: 1,
        weights,
    };
    taps.sum_blocks(&mut row[r..end]);
    blur_samples(&mut row[end..n], samples, end, weights);
}

/// "Across into a lent plane." Rows are cut out by their number: after a loop over `chunks_exact_mut` a proof knows no more than lengths.
#[tactic(auto, using(lists::proofs::Rows::row_fits))]
pub fn blur_across(img: &Plane, weights: &[f32], temp: &mut [f32])
    requires { length temp.old ≡ length img.now.samples.now }
    ensures { temp.new ≡ across img.now.samples.now img.now.shape.width img.now.shape.height weights.now }
{
    let width = img.shape.width;
    for y in 0..img.shape.height {
        let start = y * width;
        blur_row(&mut temp[start..start + width], img.row(y), weights);
    }
}

/// Blurs row `y` of a plane down, one weight at a time over the whole row. Beyond an edge the row at that edge has the taps: so these
/// need not lie one step apart, as those of `Taps::sum` do.
#[tactic(auto, using(lists::proofs::Rows::row_fits))]
fn sum_rows(row: &mut [f32], img: &Plane, y: usize, weights: &[f32])
    requires { (length row.old ≡ img.now.shape.width) × (y < img.now.shape.height) }
    ensures { row.new ≡ tabulate img.now.shape.width (λ x. along weights.now img.now.shape.height (λ r. get_or img.now.samples.now (r * img.now.shape.width + x) nan) y) }
{
    let height = img.shape.height;
    let r = weights.len() / 2;
    row.fill(0.0);
    for (k, &weight) in weights.iter().enumerate() {
        add_weighted(row, img.row(repeated_place(height, r, y + k)), weight);
    }
}

/// Blurs row `y` of a plane down, each sample along its column: in blocks, unless the row is near an edge. Down, the whole row is near
/// an edge or is not; across, each row has samples of both kinds, which is why `blur_row` goes about it differently.
#[tactic(auto, using(lists::proofs::Rows::row_fits))]
fn blur_row_down(row: &mut [f32], img: &Plane, y: usize, weights: &[f32])
    requires { (length row.old ≡ img.now.shape.width) × (y < img.now.shape.height) }
    ensures { row.new ≡ tabulate img.now.shape.width (λ x. along weights.now img.now.shape.height (λ r. get_or img.now.samples.now (r * img.now.shape.width + x) nan) y) }
{
    let width = img.shape.width;
    let r = weights.len() / 2;
    if r <= y && r < img.shape.height - y {
        let taps = Taps {
            img: img.samples,
            start: (y - r) * width,
            step: width,
            weights,
        };
        taps.sum_blocks(row);
    } else {
        sum_rows(row, img, y, weights);
    }
}

/// "Then down." A loop of its own, and not one with that of `blur_across`: a closure for what each row is given would add more than
/// the five lines that it saves.
#[tactic(auto, using(lists::proofs::Rows::row_fits))]
pub fn blur_down(img: &Plane, weights: &[f32], out: &mut [f32])
    requires { length out.old ≡ length img.now.samples.now }
    ensures { out.new ≡ down img.now.samples.now img.now.shape.width img.now.shape.height weights.now }
{
    let width = img.shape.width;
    for y in 0..img.shape.height {
        let start = y * width;
        blur_row_down(&mut out[start..start + width], img, y, weights);
    }
}
