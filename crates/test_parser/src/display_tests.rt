//! What is printed of a source has the tokens of the source, and reads back as what prints the same.

use sa_base::Pos;
use sa_parser::parse;
use sa_tokens::{Token, Word, tokens};
use std::alloc::Global;
use std::test::Fail;

const MOST_BYTES: usize = 4_194_304;

const NOWHERE: Pos = Pos { line: 0, col: 0 };

const SOURCE: &str = "
typedef unsigned long int word;
typedef struct { int a, b[2][3]; volatile word c; } pair;
struct tag { const char d; struct { short e; } f[4]; };
static const volatile signed int x = -1, y[2] = { 1, { 017u, 0xFFul }, 0, 18446744073709551615ull };
struct tag z, w[3];
pair p;
void none();
static word some(struct tag *q, int, const pair *, word *r);
";

const BODY: &str = "
typedef int word;
typedef struct pair pair;
int work(int n, pair *q, int k) {
  static int a = 3, b[2] = { 1, 2 };
  word c = fetch(), d;
  int e = fetch(1 + n, &y[n], &*q, (word)-n);
  { }
  ;
  a = n + 2 * -(- -k) - ~+!n % 3 << 1 >> 2 / 4;
  a = n < 1 || n <= 2 && n > 3 | n >= 4 ^ n == 5 & n != 6;
  a = n ? k ? 1 : 2 : n ? (3) : (struct tag)4;
  a += 1; a -= 1; a *= 1; a /= 1; a %= 1; a <<= 1; a >>= 1; a &= 1; a ^= 1; a |= 1;
  a++; b[a]--; ++a; --*q; *q = 0;
  (*q).f[1 - -1].d = q->a + p.b[0][1] + *q;
  a = fetch(a);
  fetch();
  if (a) if (b[0]) a = 1; else a = 2;
  if (a) { if (b[0]) a = 1; } else a = 2;
  while (1) { int f; f = 1; break; }
  do a--; while (a > 0);
  do { a--; } while (a > 0);
  for (;;) ;
  for (a = 0; a < 3; a++) { b[a] = a; }
  for (int i = 0; i < 3; ++i) b[i] = i;
  switch (a) { case 1: case -2: a = 1; break; default: { a = 2; } ; case 3: }
  switch (a) { }
  __ASTREE_known_fact((a > 0 && a < 9));
  __ASTREE_assert((a));
  __ASTREE_partition(());
  __ASTREE_wait_for_clock(());
  if (a) return;
  return a - (b[0] - 1);
}
void main(void) { }
";

fn lex(alloc: Global, source: &str) -> Result<Vec<Token>, Fail> {
    let bytes = source.as_bytes();
    if bytes.len() > MOST_BYTES {
        return Err(Fail::from("the source is too long"));
    }
    Ok(tokens(alloc, bytes)?)
}

fn is_same(a: &Word, b: &Word) -> bool {
    match (a, b) {
        (Word::Name(a), Word::Name(b)) => a.bytes() == b.bytes(),
        (
            Word::Number {
                value,
                unsigned,
                longs,
                decimal,
            },
            Word::Number {
                value: v,
                unsigned: u,
                longs: l,
                decimal: d,
            },
        ) => value == v && unsigned == u && longs == l && decimal == d,
        (Word::Key(a), Word::Key(b)) => a == b,
        (Word::Mark(a), Word::Mark(b)) => a == b,
        _ => false,
    }
}

#[test]
fn what_is_printed_reads_back(rt: HostRuntime) -> Result<(), Fail> {
    let alloc = rt.alloc();
    for source in [SOURCE, BODY] {
        let first = lex(alloc, source)?;
        let printed = parse(alloc, &first, NOWHERE)?.to_string(alloc)?;
        assert!(rt; !printed.is_empty());
        let second = lex(alloc, printed.as_str())?;
        assert_eq!(rt; second.len(), first.len(), "{printed}");
        for (a, b) in first.iter().zip(second.as_slice()) {
            assert!(rt; is_same(&a.word, &b.word), "{a:?} {b:?}");
        }
        let again = parse(alloc, &second, NOWHERE)?.to_string(alloc)?;
        assert_eq!(rt; again.as_str(), printed.as_str());
    }
    Ok(())
}
