//! The store: outer variables and scratches live on, and no other name does. Most of these loops break a rule of the language,
//! so that no case of floop_cases reaches them; they mean something all the same.

use crate::run::{Row, check};
use std::test::Fail;

static STORES: [Row; 13] = [
    // from item to item
    (
        "for x in 1:4\n@init b = 0\nif x == 2\nb = x\nend\n@reduce s += b\nend\n",
        "",
        "ran; s: 0 2 2 2",
    ),
    (
        "var t = 0\nfor x in 1:3\nt = t + x\n@reduce s += t\nend\n",
        "",
        "ran; s: 1 3 6",
    ),
    // from body run to body run, and on to the next item
    (
        "for x in 1:2, y in 1:3\n@init b = 0\nb = b + y\n@reduce s += b\nend\n",
        "",
        "ran; s: 1 3 6 7 9 12",
    ),
    // two variables and two scratches
    (
        "var j = 2\nvar k = 3\nfor x in 1:3\n@init a = 0\n@init b = 1\nif x == 2\na = x * j\nend\nb = b + a * k\n@reduce l = list((a, b))\nend\n",
        "",
        "ran; l: (0, 1) (4, 13) (4, 25)",
    ),
    // an assignment in a branch that isn't taken
    (
        "for x in 1:3\n@init b = 0\nif x == 2\nb = 7\nelseif x == 3\nb = 8\nend\n@reduce s += b\nend\n",
        "",
        "ran; s: 0 7 8",
    ),
    // what was assigned before a `continue` and before a `break`
    (
        "for x in 1:3\n@init b = 0\nb = b + 1\nif x == 2\ncontinue\nend\n@reduce s += b\nend\n",
        "",
        "ran; s: 1 3",
    ),
    (
        "for x in 1:9, y in 1:2\n@init b = 0\nb = b + 1\n@reduce l = list(b)\nif b == 3\nbreak\nend\nend\n",
        "",
        "break 2 6; l: 1 2 3",
    ),
    // the loop of loop_meaning's README
    (
        "for x in 1:3, y in 1:x\n@init b = 0\nb = b + y\n@reduce s += b\nif b == 4\nbreak\nend\nend\n",
        "",
        "break 2 6; s: 1 2 4",
    ),
    // a name of `let` doesn't live on: in the second item y has no value
    (
        "for x in 1:2\nif x == 1\nlet y = 5\nend\n@reduce l = list(y)\nend\n",
        "",
        "ran; l: 5 nothing",
    ),
    // a text that grows from body run to body run, past its limit
    (
        "for x in 1:1, y in 1:21\n@init b = \"ab\"\nb = b & b\n@reduce c += 1\nend\n",
        "",
        "fault 1 3 4; c: 1 1 1 1 1 1 1 1 1 1 1 1 1 1 1 1 1 1 1",
    ),
    // a scratch lives on over a skipped fault, with what was assigned before it
    (
        "on fault skip\nfor x in 1:3\n@init b = 0\nb = b + 1\nlet y = 1 div (x - 2)\n@reduce s += b\nend\n",
        "",
        "ran; s: 1 3; skipped 1",
    ),
    (
        "on fault skip\nfor x in 1:3, y in 1:3\n@init b = 0\nb = b + 1\n@reduce l = list(b)\nlet z = 1 div (x * y - 4)\nend\n",
        "",
        "ran; l: 1 2 3 6 7 8; skipped 1",
    ),
    // the loop of docs/MEANING.md
    (
        "on fault skip\nfor x in 1:4, y in 1:x\n@init b = 0\nb = b + y\n@reduce l = list((x, y))\nlet q = 6 div (x - 2)\nif x == 4 and y == 2\nbreak\nend\n@reduce s = sum(q) from 100\nend\n",
        "",
        "break 4 8; l: (1, 1) (3, 1) (3, 2) (3, 3) (4, 1) (4, 2); s: 100 -6 6 6 6 3; skipped 1",
    ),
];

/// Two items with one store that lives on, and then each of them as a part by itself.
static PARTS: [Row; 6] = [
    // a scratch that isn't written on some path: the second item sees what the first left
    (
        "for x in 3:-2:1\n@init b = 0\nif x > 2\nb = x\nend\n@reduce s += b\nend\n",
        "",
        "ran; s: 3 3",
    ),
    (
        "for x in 3:3\n@init b = 0\nif x > 2\nb = x\nend\n@reduce s += b\nend\n",
        "",
        "ran; s: 3",
    ),
    (
        "for x in 1:1\n@init b = 0\nif x > 2\nb = x\nend\n@reduce s += b\nend\n",
        "",
        "ran; s: 0",
    ),
    // an outer variable that is assigned
    (
        "var t = 0\nfor x in 1:2\nt = t + x\n@reduce s += t\nend\n",
        "",
        "ran; s: 1 3",
    ),
    (
        "var t = 0\nfor x in 1:1\nt = t + x\n@reduce s += t\nend\n",
        "",
        "ran; s: 1",
    ),
    (
        "var t = 0\nfor x in 2:2\nt = t + x\n@reduce s += t\nend\n",
        "",
        "ran; s: 2",
    ),
];

#[test]
fn parts(rt: HostRuntime) -> Result<(), Fail> {
    check(&rt, rt.alloc(), &PARTS)
}

#[test]
fn stores(rt: HostRuntime) -> Result<(), Fail> {
    check(&rt, rt.alloc(), &STORES)
}
