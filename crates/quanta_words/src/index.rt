// An index of the word table: the places of its records, sorted by their words, so that a word is looked for in few steps. The sorting
// is not proved to sort: what counts is checked after it, that each word of the table is found through the index.
ghost use Rattle.std.specs.Prelude.{◌≡◌, true, ◌≤◌, ◌<◌, length, take};
ghost use Rattle.quanta_words.specs.Index.{order_of, order_at, ordering, probe_of, Covers, Indexed};

use crate::words::word_at;
use std::cmp::Ordering;

// How a stands to b. The slices' `cmp` would cost 10.8 bytes of `typical`, where the reach is 10.
fn order(a: &[u8], b: &[u8]) -> Ordering
    ensures { result ≡ ordering (order_of a.now b.now) }
{
    for i in 0..a.len() {
        if b.len() <= i {
            return Ordering::Greater;
        }
        if a[i] < b[i] {
            return Ordering::Less;
        }
        if b[i] < a[i] {
            return Ordering::Greater;
        }
    }
    if a.len() < b.len() {
        Ordering::Less
    } else {
        Ordering::Equal
    }
}

// How a word stands to the word of the record at i; behind it where no record is.
fn order_at(table: &[u8], i: usize, word: &[u8]) -> Ordering
    ensures { result ≡ ordering (order_at table.now i word.now) }
{
    match word_at(table, i) {
        Some(held) => order(word, held),
        None => Ordering::Greater,
    }
}

// Whether the word is found through the index, which is halved at each step. std's `binary_search_by` would cost 11.9 in that measure.
pub fn probe(table: &[u8], index: &[u16], word: &[u8]) -> bool
    ensures { result ≡ probe_of table.now index.now word.now }
{
    let mut lo = 0;
    let mut hi = index.len();
    while lo < hi {
        let mid = lo + (hi - lo) / 2;
        match order_at(table, usize::from(index[mid]), word) {
            Ordering::Less => hi = mid,
            Ordering::Equal => return true,
            Ordering::Greater => lo = mid + 1,
        }
    }
    false
}

// Whether each word of the table is found through the index.
fn covers(table: &[u8], index: &[u16]) -> bool
    ensures { result ≡ true → Covers table.now index.now }
{
    let mut i = 0;
    while let Some(word) = word_at(table, i) {
        if !probe(table, index, word) {
            return false;
        }
        i += 3 + word.len();
    }
    true
}

// The word of the record at a place, and none where no whole record is.
fn entry(table: &[u8], place: u16) -> &[u8] {
    word_at(table, usize::from(place)).unwrap_or_default()
}

// Whether a word comes before that of the record at a place.
fn before(table: &[u8], word: &[u8], place: u16) -> bool {
    order_at(table, usize::from(place), word) == Ordering::Less
}

// Puts the entry at `root` where it belongs in a heap, where none comes before the two below it, at twice its place plus 1 and 2.
fn sink(table: &[u8], index: &mut [u16], mut root: usize)
    requires { root < length index.old }
{
    let word = entry(table, index[root]);
    while root < index.len() / 2 {
        let mut child = 2 * root + 1;
        if child + 1 < index.len() && before(table, entry(table, index[child]), index[child + 1]) {
            child += 1;
        }
        if !before(table, word, index[child]) {
            return;
        }
        index.swap(root, child);
        root = child;
    }
}

// Makes the entries a heap.
fn heap(table: &[u8], index: &mut [u16]) {
    for root in (0..index.len() / 2).rev() {
        sink(table, index, root);
    }
}

// Sorts the entries by their words, if they are not in order. A heap sort: std's `sort_unstable_by` calls itself, and its
// other sorts allocate.
fn sort(table: &[u8], index: &mut [u16]) {
    if index.is_sorted_by(|a, b| !before(table, entry(table, *b), *a)) {
        return;
    }
    heap(table, index);
    for end in (1..index.len()).rev() {
        index.swap(0, end);
        sink(table, &mut index[..end], 0);
    }
}

// The places of the records in order, as far as there is room; and how many there are.
fn places(table: &[u8], index: &mut [u16]) -> usize
    ensures { result ≤ length index.old }
{
    let mut n = 0;
    let mut i = 0;
    while let Some(word) = word_at(table, i) {
        if 65535 < i || index.len() <= n {
            return n;
        }
        index[n] = i as u16;
        n += 1;
        i += 3 + word.len();
    }
    n
}

// Keeps the entry at k behind the one at `last`, unless their words are the same; and the last that is kept.
fn keep(table: &[u8], index: &mut [u16], last: usize, k: usize) -> usize
    requires { (last < k) × (k < length index.old) }
    ensures { result ≤ k }
{
    if entry(table, index[last]) == entry(table, index[k]) {
        return last;
    }
    index.swap(last + 1, k);
    last + 1
}

// Keeps one entry of each word among n sorted ones; and how many are kept.
fn unique(table: &[u8], index: &mut [u16], n: usize) -> usize
    requires { n ≤ length index.old }
    ensures { result ≤ n }
{
    if n == 0 {
        return 0;
    }
    let mut last = 0;
    for k in 1..n {
        last = keep(table, index, last, k);
    }
    last + 1
}

// The places of the records, sorted by their words; and how many there are, or 0 where the room is too small.
pub fn index_words(table: &[u8], index: &mut [u16]) -> usize
    ensures { (result ≤ length index.new) × Indexed table.now (take result index.new) }
{
    let n = places(table, index);
    sort(table, &mut index[..n]);
    let m = unique(table, index, n);
    if covers(table, &index[..m]) {
        return m;
    }
    0
}
