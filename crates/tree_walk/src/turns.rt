// One turn of the walk, at one cell. The stack is two rows of words: word l is the cell to go on at on level l, and the word a row further is where that level's cells end.
ghost use Rattle.std.specs.Prelude.{◌≡◌, ◌+◌, ◌*◌, ◌^◌, ◌<◌, ◌≤◌, length};
ghost use Rattle.laws.specs.Domain.{most_word};
ghost use Rattle.tree_node.specs.Node.{Axes};
ghost use Rattle.tree_walk.specs.Turn.{fresh_spot, past_cell, opened_of, pushed_of, turned_of, stacked_of};

use crate::{Eye, Spot};
use tree_bodies::{Acc, Role, body, kind};
use tree_node::{Cell, Node};

pub(crate) fn standing(acc: Acc, at: u32, end: u32, level: usize) -> Spot
    ensures { result ≡ fresh_spot acc at end level }
{
    Spot {
        acc,
        at,
        end,
        level,
        deep: 0,
        stop: 0,
    }
}

// On from there, once what came first has been walked.
pub(crate) fn resumed(s: Spot, a: Acc) -> Spot
    ensures { result ≡ fresh_spot a s.at s.end s.level }
{
    standing(a, s.at, s.end, s.level)
}

// Past the cell, with what has been gathered: to the next cell, or back to what the stack has.
fn onward(stack: &[u32], levels: usize, s: Spot, a: Acc) -> Spot
    requires { (s.at < s.end) × (s.level ≤ levels) × (length stack.now ≡ 2 * levels) }
    ensures { result ≡ past_cell levels stack.now s a }
{
    let next = s.at + 1;
    if next < s.end {
        return standing(a, next, s.end, s.level);
    }
    if s.level == 0 {
        return standing(a, next, s.end, 0);
    }
    let l = s.level - 1;
    standing(a, stack[l], stack[l + levels], l)
}

// To the cells from f to e. What is left beside the cell goes onto the stack, if anything is.
fn opened(stack: &mut [u32], levels: usize, s: Spot, f: u32, e: u32) -> Spot
    requires { (s.at < s.end) × (s.level ≤ levels) × (length stack.old ≡ 2 * levels) }
    ensures { (result ≡ opened_of levels s f e) × (stack.new ≡ pushed_of levels stack.old s) }
{
    let next = s.at + 1;
    let l = s.level;
    if next < s.end {
        if l < levels {
            stack[l] = next;
            stack[l + levels] = s.end;
            return standing(s.acc, f, e, l + 1);
        }
        return Spot {
            at: next,
            deep: f,
            stop: e,
            ..s
        };
    }
    standing(s.acc, f, e, l)
}

// A turn at the cell v. It becomes part of each caller, with the levels and the components that stand there.
#[inline(always)]
pub(crate) fn turn(stack: &mut [u32], levels: usize, v: Cell, s: Spot, eye: Eye, c: usize) -> Spot
    requires { (Axes eye.c) × (eye.c ≡ c) × (s.at < s.end) × (s.level ≤ levels) × (v.first + 2 ^ eye.c ≤ most_word) × (length stack.old ≡ 2 * levels) }
    ensures { (result ≡ turned_of levels eye v stack.old s) × (stack.new ≡ stacked_of levels eye v stack.old s) }
{
    let n = Node::from(v);
    match kind(n, eye.q, eye.p, eye.theta2, c) {
        Role::Nothing => onward(stack, levels, s, s.acc),
        Role::Body => onward(stack, levels, s, body(n, eye.p, c, s.acc)),
        Role::Open => opened(stack, levels, s, v.first, v.first + (1 << c)),
    }
}

// A turn with 32 levels. In two components their number stands in the code, so that nothing asks for it.
pub(crate) fn short_turn(stack: &mut [u32; 64], v: Cell, s: Spot, eye: Eye) -> Spot
    requires { (Axes eye.c) × (s.at < s.end) × (s.level ≤ 32) × (v.first + 2 ^ eye.c ≤ most_word) }
    ensures { (result ≡ turned_of 32 eye v stack.old s) × (stack.new ≡ stacked_of 32 eye v stack.old s) }
{
    if eye.c == 2 {
        return turn(stack, 32, v, s, eye, 2);
    }
    turn(stack, 32, v, s, eye, eye.c)
}
