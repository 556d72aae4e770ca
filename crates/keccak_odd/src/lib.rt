// An odd round in the state itself: the lane (x, y) stands at the place (2 x + y, 2 x + 3 y) before it, and at the place (x, y) after it. The places are in two
// arrays, p those of columns 0, 2 and 4 and q those of columns 1 and 3. They are lent apart, as keccak_rounds::turns says why.
// The steps of keccak_even are functions of their own: each of their places is an element of one array or of the other, which a const parameter cannot choose.
#![tactic(auto)]

ghost use Rattle.std.specs.Prelude.{◌≡◌, ◌%◌, get_or};
ghost use Rattle.in_place.specs.Places.{standing, lanes};
ghost use Rattle.in_place.specs.Rows.{held_first_row};
ghost use Rattle.in_place.specs.Rounds.{parities, taken, put, passed, row_after, places_after};

use keccak_rows::{effect, row0, row1, row2, row3, row4};

// The columns' parities; t is taken for row 0.
fn parities(p: &[u64; 15], q: &[u64; 10], t: [u64; 5]) -> [u64; 5]
    ensures { result ≡ parities t (lanes 1 (standing p.now q.now)) }
{
    let c0 = t[0] ^ q[6] ^ p[4] ^ q[9] ^ p[8];
    let c1 = t[1] ^ q[1] ^ p[11] ^ p[3] ^ q[8];
    let c2 = t[2] ^ p[6] ^ q[0] ^ p[10] ^ q[3];
    let c3 = t[3] ^ p[13] ^ q[5] ^ p[2] ^ p[9];
    let c4 = t[4] ^ p[5] ^ p[12] ^ q[4] ^ p[1];
    [c0, c1, c2, c3, c4]
}

// Row 0, with the round constant k; it is returned too.
fn step0(p: &mut [u64; 15], q: &mut [u64; 10], d: [u64; 5], k: u64) -> [u64; 5]
    ensures { (result ≡ held_first_row (taken 1 0 d (standing p.old q.old)) k)
        × (standing p.new q.new ≡ put 0 0 result (standing p.old q.old)) }
{
    let e = row0(
        [
            p[0] ^ d[0],
            q[1] ^ d[1],
            q[0] ^ d[2],
            p[2] ^ d[3],
            p[1] ^ d[4],
        ],
        k,
    );
    p[0] = e[0];
    q[0] = e[1];
    p[1] = e[2];
    q[1] = e[3];
    p[2] = e[4];
    e
}

// Row 1.
fn step1(p: &mut [u64; 15], q: &mut [u64; 10], d: [u64; 5])
    ensures { standing p.new q.new ≡ passed 1 1 d (standing p.old q.old) }
{
    let e = row1([
        q[2] ^ d[3],
        p[5] ^ d[4],
        p[4] ^ d[0],
        p[3] ^ d[1],
        q[3] ^ d[2],
    ]);
    p[3] = e[0];
    q[2] = e[1];
    p[4] = e[2];
    q[3] = e[3];
    p[5] = e[4];
}

// Row 2.
fn step2(p: &mut [u64; 15], q: &mut [u64; 10], d: [u64; 5])
    ensures { standing p.new q.new ≡ passed 1 2 d (standing p.old q.old) }
{
    let e = row2([
        p[7] ^ d[1],
        p[6] ^ d[2],
        q[5] ^ d[3],
        q[4] ^ d[4],
        p[8] ^ d[0],
    ]);
    p[6] = e[0];
    q[4] = e[1];
    p[7] = e[2];
    q[5] = e[3];
    p[8] = e[4];
}

// Row 3.
fn step3(p: &mut [u64; 15], q: &mut [u64; 10], d: [u64; 5])
    ensures { standing p.new q.new ≡ passed 1 3 d (standing p.old q.old) }
{
    let e = row3([
        q[7] ^ d[4],
        q[6] ^ d[0],
        p[11] ^ d[1],
        p[10] ^ d[2],
        p[9] ^ d[3],
    ]);
    p[9] = e[0];
    q[6] = e[1];
    p[10] = e[2];
    q[7] = e[3];
    p[11] = e[4];
}

// Row 4.
fn step4(p: &mut [u64; 15], q: &mut [u64; 10], d: [u64; 5])
    ensures { standing p.new q.new ≡ passed 1 4 d (standing p.old q.old) }
{
    let e = row4([
        p[14] ^ d[2],
        p[13] ^ d[3],
        p[12] ^ d[4],
        q[9] ^ d[0],
        q[8] ^ d[1],
    ]);
    p[12] = e[0];
    q[8] = e[1];
    p[13] = e[2];
    q[9] = e[3];
    p[14] = e[4];
}

// The round with the constant at i of the 24, i taken modulo 24, that takes t for row 0; what is returned is row 0 after it. The constant is read where it
// is used, at the round's end: read before the round it would hold a register.
pub fn odd(p: &mut [u64; 15], q: &mut [u64; 10], t: [u64; 5], k: &[u64; 24], i: usize) -> [u64; 5]
    ensures { (result ≡ row_after 1 t (get_or k.now (i % 24) 0) (standing p.old q.old))
        × (standing p.new q.new ≡ places_after 1 t (get_or k.now (i % 24) 0) (standing p.old q.old)) }
{
    let d = effect(parities(p, q, t));
    step4(p, q, d);
    step3(p, q, d);
    step1(p, q, d);
    step2(p, q, d);
    step0(p, q, d, k[i % 24])
}
