// Sets of numbers below 64, held as the bits of a u64. Each contract is a fact about members, by the one definition `has` on numbers of any
// width; 64 stands only where a function needs it.
#![tactic(auto)]

ghost use Rattle.std.specs.Prelude.{◌≡◌, ◌<◌, ◌≤◌};
ghost use Rattle.sets.specs.Set.{has as member, size as size_of, subset, IsWith, IsWithout, IsJoin, IsMeet, IsLess, IsBelow, IsLowest, IsRest};

// Is i in s?
pub fn has(s: u64, i: usize) -> bool
    requires { i < 64 }
    ensures { result ≡ member s i }
{
    (s >> i) % 2 == 1
}

// s with i.
pub fn with(s: u64, i: usize) -> u64
    requires { i < 64 }
    ensures { IsWith s i result }
{
    s | (1 << i)
}

// s without i.
pub fn without(s: u64, i: usize) -> u64
    requires { i < 64 }
    ensures { IsWithout s i result }
{
    let one: u64 = 1 << i;
    s - (s & one)
}

// What s or t has.
pub fn join(s: u64, t: u64) -> u64
    ensures { IsJoin s t result }
{
    s | t
}

// What s and t have.
pub fn meet(s: u64, t: u64) -> u64
    ensures { IsMeet s t result }
{
    s & t
}

// What s has and t does not.
pub fn less(s: u64, t: u64) -> u64
    ensures { IsLess s t result }
{
    s - (s & t)
}

// Is each member of s one of t?
pub fn is_subset(s: u64, t: u64) -> bool
    ensures { result ≡ subset 64 s t }
{
    let both = s & t;
    both == s
}

fn wide(x: u32) -> usize
    ensures { result ≡ x }
{
    x as usize
}

// How many members s has.
pub fn size(s: u64) -> usize
    ensures { result ≡ size_of 64 s }
{
    wide(u64::count_ones(s))
}

// The lowest member of a set that has one.
pub fn lowest(s: u64) -> usize
    requires { s ≡ 0 → ⊥ }
    ensures { IsLowest 64 s result }
{
    wide(u64::trailing_zeros(s))
}

// A set that has a member, without its lowest.
pub fn rest(s: u64) -> u64
    requires { s ≡ 0 → ⊥ }
    ensures { IsRest 64 s result }
{
    s & (s - 1)
}

// The numbers below n.
pub fn below(n: usize) -> u64
    requires { n ≤ 64 }
    ensures { IsBelow n result }
{
    if n == 64 {
        return 18446744073709551615;
    }
    (1 << n) - 1
}
