// RFC 7693 section 3.1: the mixing function G on the work vector, and the rounds made of it.
ghost use Rattle.std.specs.Prelude.{◌≡◌, ◌+◌, ◌*◌, ◌%◌, ◌^◌, ◌<◌, slice_index};
ghost use Rattle.blake2b.specs.Schedule.{row_of, digit};
ghost use Rattle.blake2b.specs.Blake2b.{◌▷◌, add_word, add, turn, G, mixing, round, rounds};

const SIGMA: [u64; 10] = [
    0x0123456789ABCDEF,
    0xEA489FD61C02B753,
    0xB8C052FDAE367194,
    0x7931DCBE265A40F8,
    0x905724AFE1BC683D,
    0x2C6A0B834D75FE19,
    0xC51FED4A0763928B,
    0xDB7EC13950F4862A,
    0x6FE9B308C2D714A5,
    0xA2847615FB9E3CD0,
];

// Half of G, with the message word x and the rotations r and s.
// a, b, c and d stay four parameters: they are RFC 7693's names, which `G` and `add_word` take too.
fn half(v: &mut [u64; 16], a: usize, b: usize, c: usize, d: usize, x: u64, r: u32, s: u32)
    requires places { ((a < 16) × (b < 16)) × ((c < 16) × (d < 16)) }
    requires rotations { ((0 < r) × (r < 64)) × ((0 < s) × (s < 64)) }
    ensures { v.new ≡ v.old ▷ add_word a b x ▷ turn d a r ▷ add c d ▷ turn b c s }
{
    v[a] = v[a].wrapping_add(v[b]).wrapping_add(x);
    v[d] = (v[d] ^ v[a]).rotate_right(r);
    v[c] = v[c].wrapping_add(v[d]);
    v[b] = (v[b] ^ v[c]).rotate_right(s);
}

// The mixing function G.
fn mix(v: &mut [u64; 16], a: usize, b: usize, c: usize, d: usize, x: u64, y: u64)
    requires { ((a < 16) × (b < 16)) × ((c < 16) × (d < 16)) }
    ensures { v.new ≡ G v.old a b c d x y }
{
    half(v, a, b, c, d, x, 32, 24);
    half(v, a, b, c, d, y, 16, 63);
}

// Row i of SIGMA as a number: SIGMA[i][j] is its hexadecimal digit j, from the left.
fn row(i: usize) -> u64
    requires { i < 10 }
    ensures { result ≡ row_of i }
{
    SIGMA[i]
}

// The message word that digit j of a row names.
fn scheduled(m: &[u64; 16], row: u64, j: usize) -> u64
    requires { j < 16 }
    ensures { result ≡ slice_index m.now (digit row j) }
{
    let k = (row >> (60 - 4 * j)) % 16;
    m[k as usize]
}

// A round's mixing number j, with row i of SIGMA.
fn mixing(
    v: &mut [u64; 16],
    m: &[u64; 16],
    i: usize,
    j: usize,
    a: usize,
    b: usize,
    c: usize,
    d: usize,
)
    requires round { i < 10 }
    requires number { j < 8 }
    requires places { ((a < 16) × (b < 16)) × ((c < 16) × (d < 16)) }
    ensures { v.new ≡ mixing m.now i j a b c d v.old }
{
    let sigma = row(i);
    let x = scheduled(m, sigma, 2 * j);
    let y = scheduled(m, sigma, 2 * j + 1);
    mix(v, a, b, c, d, x, y);
}

// One round, with row i of SIGMA: four columns, then four diagonals.
// A `for` over a table of places misses the bar of speed: 16 ms for 1 MiB, and this form 2.1 ms.
fn round(v: &mut [u64; 16], m: &[u64; 16], i: usize)
    requires { i < 10 }
    ensures { v.new ≡ round m.now i v.old }
{
    mixing(v, m, i, 0, 0, 4, 8, 12);
    mixing(v, m, i, 1, 1, 5, 9, 13);
    mixing(v, m, i, 2, 2, 6, 10, 14);
    mixing(v, m, i, 3, 3, 7, 11, 15);
    mixing(v, m, i, 4, 0, 5, 10, 15);
    mixing(v, m, i, 5, 1, 6, 11, 12);
    mixing(v, m, i, 6, 2, 7, 8, 13);
    mixing(v, m, i, 7, 3, 4, 9, 14);
}

// All twelve rounds.
pub(crate) fn twelve_rounds(v: &mut [u64; 16], m: &[u64; 16])
    ensures { v.new ≡ rounds m.now 12 v.old }
{
    for i in 0..12 {
        round(v, m, i % 10);
    }
}
