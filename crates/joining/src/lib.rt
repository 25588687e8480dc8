// Two stores merged in one pass from the front. Nothing is asked of their bytes but the length.
#![tactic(auto)]

ghost use Rattle.std.specs.Prelude.{cond, ◌≡◌, ◌+◌, ◌-◌, ◌≤◌, length};
ghost use Rattle.std.proofs.lemmas.List.Edits.{sets};
ghost use Rattle.laws.specs.Lists.{gather};
ghost use Rattle.language.specs.Answers.{zeros};
ghost use Rattle.records.specs.Records.{best};
ghost use Rattle.records.specs.Stores.{store_length, record_cells, record_at, records_of, joined, record_offset, HasRoom};
ghost use Rattle.records.specs.Answers.{kept, kept_as};
ghost use Rattle.joining.specs.Joints.{records_from, JoinStepped, Walked, JoinFilled};

use numbers::put_bytes;
use records::{CAPACITY, Record, STORE_LENGTH};
use store::{appliance_at, beats, count, put_count, put_record, record_at};

// How many records of the one store and of the other are taken, and how many are written.
#[derive(Clone, Copy)]
pub struct Joint {
    pub i: usize,
    pub j: usize,
    pub w: usize,
}

// The one or the other. Two of these choose without a branch, which no processor could guess.
fn either<'a>(s: &'a [u8], u: &'a [u8], second: bool) -> &'a [u8]
    ensures { result.now ≡ cond second u.now s.now }
{
    if second {
        return u;
    }
    s
}

fn chosen(i: usize, j: usize, second: bool) -> usize
    ensures { result ≡ cond second j i }
{
    if second {
        return j;
    }
    i
}

// The winner of record i of s and record j of u.
fn winner<'a>(s: &'a [u8], u: &'a [u8], i: usize, j: usize) -> Record
    requires { HasRoom s.now (i + 1) × HasRoom u.now (j + 1) }
    ensures { result ≡ best (record_at u.now j) (record_at s.now i) }
{
    let second = beats(record_at(u, j), record_at(s, i));
    record_at(either(s, u, second), chosen(i, j, second))
}

// The lower of record i of s and record j of u, or of two for one appliance the winner, becomes record w of out.
fn step<'a>(s: &'a [u8], u: &'a [u8], out: &mut [u8], x: Joint) -> Joint
    requires { HasRoom s.now (x.i + 1) × HasRoom u.now (x.j + 1) × HasRoom out.old (x.w + 1) }
    ensures { JoinStepped (record_at s.now x.i) (record_at u.now x.j) x.i x.j x.w out.old result out.new }
{
    let Joint { i, j, w } = x;
    let a = appliance_at(s, i);
    let b = appliance_at(u, j);
    if a < b {
        put_record(out, w, record_at(s, i));
        return Joint {
            i: i + 1,
            j,
            w: w + 1,
        };
    }
    if a == b {
        put_record(out, w, winner(s, u, i, j));
        return Joint {
            i: i + 1,
            j: j + 1,
            w: w + 1,
        };
    }
    put_record(out, w, record_at(u, j));
    Joint {
        i,
        j: j + 1,
        w: w + 1,
    }
}

// Records are written until one store is used up or there is no room for more.
fn walk<'a>(s: &'a [u8], u: &'a [u8], n: usize, k: usize, out: &mut [u8]) -> Joint
    requires { HasRoom s.now n × HasRoom u.now k × (out.old ≡ zeros store_length) }
    ensures { Walked s.now u.now n k result out.new }
{
    let mut x = Joint { i: 0, j: 0, w: 0 };
    // Kept, plainer: `step` says how far each of the three places goes, which a range would say again.
    while x.w < CAPACITY {
        if n <= x.i || k <= x.j {
            return x;
        }
        x = step(s, u, out, x);
    }
    x
}

// The records of s from place i on up to n become those of out from place w on.
fn rest(s: &[u8], i: usize, n: usize, out: &mut [u8], w: usize)
    requires { (i ≤ n) × HasRoom s.now n × HasRoom out.old (w + (n - i)) }
    ensures { out.new ≡ sets out.old (record_offset w) (gather record_cells (records_from s.now i n)) }
{
    for d in 0..n - i {
        put_record(out, w + d, record_at(s, i + d));
    }
}

// Both stores joined in out, which was zero; false where there is no room for them.
fn join_into<'a>(s: &'a [u8], u: &'a [u8], out: &mut [u8]) -> bool
    requires { (length s.now ≡ store_length) × (length u.now ≡ store_length) × (out.old ≡ zeros store_length) }
    ensures { JoinFilled s.now u.now result out.new }
{
    let n = count(s);
    let k = count(u);
    let x = walk(s, u, n, k, out);
    let first = x.w + (n - x.i);
    let all = first + (k - x.j);
    if CAPACITY < all {
        return false;
    }
    rest(s, x.i, n, out, x.w);
    rest(u, x.j, k, out, first);
    put_count(out, all);
    true
}

// Store u is merged into store s: false, and s as it was, exactly if there is no room for the records of both.
pub fn join(s: &mut [u8], u: &[u8]) -> bool
    requires { (length s.old ≡ store_length) × (length u.now ≡ store_length) }
    ensures { kept_as result s.new ≡ kept s.old (joined (records_of s.old) (records_of u.now)) }
{
    let mut out = [0u8; STORE_LENGTH];
    if !join_into(s, u, &mut out) {
        return false;
    }
    put_bytes(s, 0, &out);
    true
}
