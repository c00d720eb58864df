// A level of a path text under survey, its operand's sort and the fault that was found: what a token does to each of them.
#![tactic(auto)]

ghost use Rattle.std.specs.Prelude.{◌≡◌, ◌&&◌, ◌||◌, not, cond, ◌<◌, T, eqb, leb};
ghost use Rattle.text.specs.Limited.{holds_call, result_of, is_path, number_taken, path_taken};
ghost use Rattle.text.specs.Survey.{fresh, wants_path, bare, member_sort, level_sort, path_begun, other_begun, joined_on, union_at, operated, operator_faults, sign_faults, end_faults, function_at, sort_behind, fault_behind};
ghost use Rattle.levels.specs.Levels.{group_of, tightness_of, read_in, ranked, stepped, slashed, grouped, bracketed, quoted, level_in, sort_in, sooner, lowered, with_own, fault_in, is_due, takes_sign, goes_on};

use text::{Fault, Function, Level, Sort};

// ---- sorts

// Is an operand of this sort a path?
pub fn is_path(v: Sort) -> bool
    ensures { result ≡ is_path v }
{
    matches!(v, Sort::Nodes)
}

fn is_number_taken(v: Sort) -> bool
    ensures { result ≡ number_taken v }
{
    matches!(v, Sort::Numeral | Sort::Unheld)
}

fn is_path_taken(v: Sort) -> bool
    ensures { result ≡ path_taken v }
{
    matches!(v, Sort::Nodes | Sort::Unheld)
}

fn wants_path(l: Level) -> bool
    ensures { result ≡ wants_path l }
{
    l.kind == 0 || l.kind == 6
}

fn is_bare(l: Level) -> bool
    ensures { result ≡ bare l }
{
    !l.andor && l.rank == 0
}

fn member_sort(l: Level, v: Sort) -> Sort
    ensures { result ≡ member_sort l v }
{
    if l.joined { Sort::Unheld } else { v }
}

// The sort of a whole level.
#[tactic(auto, unfolding(text::specs::Survey::level_sort))]
pub fn level_sort(l: Level, v: Sort) -> Sort
    ensures { result ≡ level_sort l v }
{
    if l.andor || l.rank == 2 {
        return Sort::Truth;
    }
    if l.rank == 1 {
        return Sort::Numeral;
    }
    member_sort(l, v)
}

// ---- levels

// A level of this kind, whose operand begins at p.
pub fn fresh(kind: usize, p: usize) -> Level
    ensures { result ≡ fresh kind p }
{
    Level {
        kind,
        rank: 0,
        joined: false,
        inpath: false,
        andor: false,
        e: p,
        g: p,
        m: p,
    }
}

fn path_begun(l: Level) -> Level
    ensures { result ≡ path_begun l }
{
    Level { inpath: true, ..l }
}

fn other_begun(l: Level) -> Level
    ensures { result ≡ other_begun l }
{
    Level { inpath: false, ..l }
}

fn joined_on(l: Level) -> Level
    ensures { result ≡ joined_on l }
{
    Level { joined: true, ..l }
}

fn union_at(p: usize, l: Level) -> Level
    ensures { result ≡ union_at p l }
{
    Level {
        joined: true,
        inpath: false,
        m: p,
        ..l
    }
}

// `or` or `and`, whose operand begins at p.
#[tactic(auto, unfolding(text::specs::Survey::operated))]
fn parted(p: usize, l: Level) -> Level
    ensures { result ≡ operated 1 p l }
{
    Level {
        rank: 0,
        joined: false,
        inpath: false,
        andor: true,
        e: p,
        g: p,
        m: p,
        ..l
    }
}

// Another operator or a sign: the rank behind it, and where the operands in progress begin.
fn ranked(rank: usize, g: usize, p: usize, l: Level) -> Level
    ensures { result ≡ ranked rank g p l }
{
    Level {
        rank,
        joined: false,
        inpath: false,
        g,
        m: p,
        ..l
    }
}

#[tactic(auto, unfolding(text::specs::Survey::operated))]
fn operated(k: usize, p: usize, l: Level) -> Level
    ensures { result ≡ operated k p l }
{
    if k <= 2 {
        return parted(p, l);
    }
    if k == 3 {
        return ranked(2, p, p, l);
    }
    let g = l.g;
    if k == 4 {
        return ranked(2, g, p, l);
    }
    let rank = l.rank;
    if rank == 0 {
        return ranked(1, g, p, l);
    }
    ranked(rank, g, p, l)
}

// `/` and `//`.
#[tactic(auto, unfolding(crate::specs::Levels::slashed))]
fn slashed(mode: usize, l: Level) -> Level
    ensures { result ≡ slashed mode l }
{
    if mode < 3 {
        return path_begun(l);
    }
    if 12 <= mode && !l.inpath {
        return path_begun(joined_on(l));
    }
    l
}

// A token of a step.
#[tactic(auto, unfolding(crate::specs::Levels::stepped))]
fn stepped(mode: usize, l: Level) -> Level
    ensures { result ≡ stepped mode l }
{
    if mode < 3 { path_begun(l) } else { l }
}

// `(` begins a group or a call, an operand that is no path; behind a node type it begins nothing.
#[tactic(auto, unfolding(crate::specs::Levels::grouped))]
fn grouped(mode: usize, l: Level) -> Level
    ensures { result ≡ grouped mode l }
{
    if mode < 3 || mode == 11 {
        return other_begun(l);
    }
    l
}

// `[`: an operand that is no path becomes a filter.
#[tactic(auto, unfolding(crate::specs::Levels::bracketed))]
fn bracketed(l: Level) -> Level
    ensures { result ≡ bracketed l }
{
    if l.inpath { l } else { joined_on(l) }
}

// A string is an operand, but for that of a processing-instruction.
#[tactic(auto, unfolding(crate::specs::Levels::quoted))]
fn quoted(mode: usize, l: Level) -> Level
    ensures { result ≡ quoted mode l }
{
    if mode == 10 { l } else { other_begun(l) }
}

// What a class of tokens is grouped with, by what a token of it does to a level: tokens of steps, operands of one token, slashes, the bar,
// operators and signs, strings, `(` and `[`, and those that do nothing.
#[derive(Clone, Copy, PartialEq, Eq)]
pub enum Group {
    Other,
    StepToken,
    Operand,
    Slash,
    Bar,
    Operator,
    Quoted,
    Round,
    Square,
}

// The group of each class, at its number.
static GROUPS: [Group; 34] = [
    Group::Round,
    Group::Other,
    Group::Square,
    Group::Other,
    Group::StepToken,
    Group::StepToken,
    Group::StepToken,
    Group::Other,
    Group::StepToken,
    Group::StepToken,
    Group::StepToken,
    Group::StepToken,
    Group::Other,
    Group::StepToken,
    Group::Quoted,
    Group::Operand,
    Group::Operand,
    Group::Slash,
    Group::Slash,
    Group::Bar,
    Group::Operator,
    Group::Operator,
    Group::Operator,
    Group::Operator,
    Group::Operator,
    Group::Operator,
    Group::Operator,
    Group::Operator,
    Group::Operator,
    Group::Operator,
    Group::Operator,
    Group::Operator,
    Group::Operator,
    Group::Other,
];

// The group of a class.
#[tactic(auto, unfolding(crate::specs::Levels::group_of))]
pub fn group_of(k: usize) -> Group
    ensures { result ≡ group_of k }
{
    GROUPS.get(k).copied().unwrap_or(Group::Other)
}

// How strongly the operators bind, in the order of their classes, of which the first is 20.
static TIGHTNESSES: [usize; 13] = [5, 5, 3, 3, 4, 4, 4, 4, 6, 2, 1, 6, 6];

// How strongly the operator of a class binds; 0 for what is no operator.
#[tactic(auto, unfolding(crate::specs::Levels::tightness_of))]
pub fn tightness_of(k: usize) -> usize
    ensures { result ≡ tightness_of k }
{
    if k < 20 {
        return 0;
    }
    TIGHTNESSES.get(k - 20).copied().unwrap_or(0)
}

// ---- faults

// A fault with this number at p, unless there is one that is lower or as low.
#[tactic(auto, unfolding(crate::specs::Levels::sooner))]
pub fn sooner(number: u32, p: usize, f: Option<Fault>) -> Option<Fault>
    ensures { result ≡ sooner number p f }
{
    match f {
        None => Some(Fault { number, place: p }),
        Some(kept) => {
            let here = p == kept.place && number < kept.number;
            if p < kept.place || here {
                Some(Fault { number, place: p })
            } else {
                f
            }
        }
    }
}

// 26 at p, if the test holds.
#[tactic(auto, unfolding(crate::specs::Levels::lowered))]
pub fn lowered(test: bool, p: usize, f: Option<Fault>) -> Option<Fault>
    ensures { result ≡ lowered test p f }
{
    if test { sooner(26, p, f) } else { f }
}

// The faults that an operator shows.
#[tactic(auto, unfolding(text::specs::Survey::operator_faults))]
fn operator_faults(k: usize, l: Level, v: Sort, f: Option<Fault>) -> Option<Fault>
    ensures { result ≡ operator_faults lowered k l v f }
{
    let compared = l.rank == 2;
    let third = lowered(k == 4 && compared, l.g, f);
    let second = lowered(k == 3 && compared, l.e, third);
    let whole = lowered(wants_path(l) && is_bare(l), l.e, second);
    let taken = 0 < l.rank || 3 <= k;
    let wrong = !is_number_taken(member_sort(l, v));
    lowered(taken && wrong, l.m, whole)
}

// The fault that a sign shows.
#[tactic(auto, unfolding(text::specs::Survey::sign_faults))]
fn sign_faults(l: Level, f: Option<Fault>) -> Option<Fault>
    ensures { result ≡ sign_faults lowered l f }
{
    lowered(wants_path(l) && is_bare(l), l.e, f)
}

// The faults that the end of a level shows.
#[tactic(auto, unfolding(text::specs::Survey::end_faults))]
pub fn end_faults(l: Level, v: Sort, f: Option<Fault>) -> Option<Fault>
    ensures { result ≡ end_faults lowered l v f }
{
    let sort = member_sort(l, v);
    let path = wants_path(l) && is_bare(l) && !is_path_taken(sort);
    let whole = lowered(path, l.e, f);
    lowered(0 < l.rank && !is_number_taken(sort), l.m, whole)
}

// A token's own fault, if it has one, at its first byte.
#[tactic(auto, unfolding(crate::specs::Levels::with_own))]
fn with_own(own: Option<u32>, p: usize, f: Option<Fault>) -> Option<Fault>
    ensures { result ≡ with_own own p f }
{
    match own {
        Some(number) => sooner(number, p, f),
        None => f,
    }
}

// An operator's faults, or a sign's.
fn operation_faults(
    k: usize,
    tight: usize,
    mode: usize,
    l: Level,
    v: Sort,
    f: Option<Fault>,
) -> Option<Fault>
    ensures { result ≡ cond (eqb k 21 && takes_sign mode) (sign_faults lowered l f) (operator_faults lowered tight l v f) }
{
    if k == 21 && mode < 2 {
        return sign_faults(l, f);
    }
    operator_faults(tight, l, v, f)
}

// `/` or `//` behind an operand that is no path.
fn slash_fault(mode: usize, l: Level, f: Option<Fault>) -> Option<Fault>
    ensures { result ≡ lowered (not (is_due mode) && (goes_on mode && not l.inpath)) l.m f }
{
    let on = 12 <= mode && !l.inpath;
    lowered(3 <= mode && on, l.m, f)
}

// A string: of a processing-instruction at byte name, or by itself at byte p.
fn string_fault(mode: usize, name: usize, p: usize, f: Option<Fault>) -> Option<Fault>
    ensures { result ≡ sooner 26 (cond (eqb mode 10) name p) f }
{
    if mode == 10 {
        return sooner(26, name, f);
    }
    sooner(26, p, f)
}

// ---- tokens

// A token in a mode: its class, what that is grouped with, how strongly it binds as an operator, and the mode.
#[derive(Clone, Copy)]
pub struct Read {
    pub group: Group,
    pub kind: usize,
    pub tight: usize,
    pub mode: usize,
}

impl Read {
    // A token of class k in a mode.
    pub fn new(k: usize, mode: usize) -> Self
        ensures { result ≡ read_in k mode }
    {
        Read {
            group: group_of(k),
            kind: k,
            tight: tightness_of(k),
            mode,
        }
    }

    // The level behind the token; what follows it begins at p.
    #[tactic(auto, unfolding(crate::specs::Levels::level_in))]
    pub fn level(self, p: usize, l: Level) -> Level
        ensures { result ≡ level_in self.group self.tight self.mode p l }
    {
        match self.group {
            Group::Other => l,
            Group::StepToken => stepped(self.mode, l),
            Group::Operand => other_begun(l),
            Group::Slash => slashed(self.mode, l),
            Group::Bar => union_at(p, l),
            Group::Operator => operated(self.tight, p, l),
            Group::Quoted => quoted(self.mode, l),
            Group::Round => grouped(self.mode, l),
            Group::Square => bracketed(l),
        }
    }

    // The sort of the operand in progress behind the token.
    #[tactic(auto, unfolding(crate::specs::Levels::sort_in))]
    pub fn sort(self, v: Sort) -> Sort
        ensures { result ≡ sort_in self.group self.kind self.mode v }
    {
        match self.group {
            Group::StepToken | Group::Slash if self.mode < 3 => Sort::Nodes,
            Group::Operand if self.kind == 15 => Sort::Numeral,
            Group::Operand => Sort::Unheld,
            Group::Quoted if self.mode != 10 => Sort::Unheld,
            _ => v,
        }
    }

    // The fault behind the token, which begins at p and may have a fault of its own.
    #[tactic(auto, unfolding(crate::specs::Levels::fault_in))]
    pub fn fault(
        self,
        p: usize,
        own: Option<u32>,
        l: Level,
        v: Sort,
        name: usize,
        f: Option<Fault>,
    ) -> Option<Fault>
        ensures { result ≡ fault_in self.group self.kind self.tight self.mode l v name p own f }
    {
        match self.group {
            Group::StepToken | Group::Operand => with_own(own, p, f),
            Group::Slash => slash_fault(self.mode, l, f),
            Group::Bar => lowered(!l.joined, l.m, f),
            Group::Operator => operation_faults(self.kind, self.tight, self.mode, l, v, f),
            Group::Quoted => string_fault(self.mode, name, p, f),
            Group::Square => lowered(!l.inpath, l.m, f),
            Group::Other | Group::Round => f,
        }
    }
}

// ---- the end of a level

// Does document 01 hold this function with so many arguments?
#[tactic(auto, unfolding(text::specs::Limited::holds_call))]
fn holds_call(f: Function, arity: usize) -> bool
    ensures { result ≡ holds_call f arity }
{
    match f {
        Function::PositionCall | Function::LastCall => arity == 0,
        Function::CountCall | Function::NotCall | Function::BooleanCall => arity == 1,
        Function::OtherCall => false,
    }
}

// The sort of what a function gives.
#[tactic(auto, unfolding(text::specs::Limited::result_of))]
fn result_sort(f: Function) -> Sort
    ensures { result ≡ result_of f }
{
    match f {
        Function::PositionCall | Function::LastCall | Function::CountCall => Sort::Numeral,
        Function::NotCall | Function::BooleanCall => Sort::Truth,
        Function::OtherCall => Sort::Unheld,
    }
}

// The sort of the operand that a level of this kind is, whose own sort is v and which holds so many arguments.
#[tactic(auto, unfolding(text::specs::Survey::sort_behind))]
pub fn sort_behind(kind: usize, arity: usize, v: Sort) -> Sort
    requires { T (eqb kind 1 || (eqb kind 2 || leb 4 kind)) }
    ensures { result ≡ sort_behind kind arity v }
{
    if kind == 1 {
        return v;
    }
    if kind == 2 {
        return Sort::Nodes;
    }
    let f = Function::from(kind - 4);
    if holds_call(f, arity) {
        return result_sort(f);
    }
    Sort::Unheld
}

// Is that operand at fault: a group that holds a path, or a call that is not held?
#[tactic(auto, unfolding(text::specs::Survey::fault_behind))]
pub fn is_fault_behind(kind: usize, arity: usize, v: Sort) -> bool
    ensures { result ≡ fault_behind kind arity v }
{
    if kind == 1 {
        return is_path(v);
    }
    if kind < 4 {
        return false;
    }
    !holds_call(Function::from(kind - 4), arity)
}
