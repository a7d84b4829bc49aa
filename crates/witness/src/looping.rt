// Tests on the threads' statements, as they stand in the sheet one after the other: rules 16 and 17.
ghost use Rattle.std.specs.Prelude.{◌≡◌, ◌≤◌};
ghost use Rattle.witness.specs.Witness.{lowest};
ghost use Rattle.witness.specs.Seeking.{body_at, by_body};

use crate::BodyTest;

// The place of a thread's statement, the first one's being `body`.
fn body_at(sheet: &[u8], definitions: &[usize; 8], body: usize, i: usize) -> usize
    ensures { result ≡ body_at sheet.now definitions.now body i }
{
    let mut next = body;
    for _ in 0..i {
        let w = rules::walk(sheet, definitions, next, 64);
        next = w.next;
    }
    next
}

// Does the test hold of thread k?
fn by_body(sheet: &[u8], definitions: &[usize; 8], body: usize, test: BodyTest, k: usize) -> bool
    ensures { result ≡ by_body sheet.now definitions.now body test k }
{
    let w = rules::walk(sheet, definitions, body_at(sheet, definitions, body, k), 64);
    match test {
        BodyTest::Running => !w.starts,
        BodyTest::Away => !rules::both(w.surely, w.loops),
    }
}

// The lowest of n threads of which the test holds, n where there is none.
pub fn first_body(
    sheet: &[u8],
    definitions: &[usize; 8],
    body: usize,
    test: BodyTest,
    n: usize,
) -> usize
    ensures { result ≡ lowest n (by_body sheet.now definitions.now body test) }
{
    for k in 0..n {
        if by_body(sheet, definitions, body, test, k) {
            return k;
        }
    }
    n
}
