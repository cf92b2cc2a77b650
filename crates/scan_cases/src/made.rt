// Fields that are too long to write out. Each function fills what it is lent and answers how many bytes are filled.

// The first n bytes, or all where there are not so many.
pub fn part(bytes: &[u8], n: usize) -> &[u8] {
    &bytes[..n.min(bytes.len())]
}

// What stands after the place n.
pub fn rest(bytes: &[u8], n: usize) -> &[u8] {
    if n < bytes.len() {
        return &bytes[n + 1..];
    }
    bytes
}

// Puts b at `at`, where there is room, and answers the next place.
fn put(out: &mut [u8], at: usize, b: u8) -> usize {
    if at < out.len() {
        out[at] = b;
        return at + 1;
    }
    at
}

// `a(` k times.
fn opened(out: &mut [u8], k: usize) -> usize {
    let mut n: usize = 0;
    for _ in 0..k {
        n = put(out, n, b'a');
        n = put(out, n, b'(');
    }
    n
}

// One byte k times from `at` on.
fn run(out: &mut [u8], at: usize, b: u8, k: usize) -> usize {
    let mut n = at;
    for _ in 0..k {
        n = put(out, n, b);
    }
    n
}

pub fn filled(out: &mut [u8], b: u8, k: usize) -> usize {
    run(out, 0, b, k)
}

// A byte inside k brackets, closed or not.
pub fn nested(k: usize, b: u8, shut: bool, out: &mut [u8]) -> usize {
    let n = opened(out, k);
    let m = put(out, n, b);
    if shut {
        return run(out, m, b')', k);
    }
    m
}

// Every byte once, in order.
pub fn all_bytes(out: &mut [u8]) -> usize {
    let mut n: usize = 0;
    for b in 0..=u8::MAX {
        n = put(out, n, b);
    }
    n
}
