//! Filters by the six comparisons.
ghost use Rattle.std.specs.Prelude.{◌≡◌, ◌≢◌, ◌≤ℤ◌, ◌<ℤ◌, ℤ};
ghost use Rattle.strided_dom.specs.Progression.{Has, IsExactly, IsHull};
ghost use Rattle.filters.specs.Partners.{HasPartner, IsAssumed};
ghost use Rattle.tm_cint.specs.Operators.{IsComparison};

use strided_dom::Strided;
use tm_cint::BinOp;

/// What is left of `a` and `b` where `x op y` is known of a member x of `a` and a member y of `b`: the
/// least strided sets with all x and all y of such pairs. Both are empty where one operand is.
pub fn assume(op: BinOp, a: &Strided, b: &Strided) -> (Strided, Strided)
    requires { IsComparison op }
    ensures { IsAssumed op a.now b.now result.0 result.1 }
{
    match op {
        BinOp::Lt => (less(a, b), greater(b, a)),
        BinOp::Le => (at_most(a, b), at_least(b, a)),
        BinOp::Gt => (greater(a, b), less(b, a)),
        BinOp::Ge => (at_least(a, b), at_most(b, a)),
        BinOp::Eq => (equal(a, b), equal(b, a)),
        _ => (unequal(a, b), unequal(b, a)),
    }
}

/// The members of `a` below some member of `b`.
fn less(a: &Strided, b: &Strided) -> Strided
    ensures { IsHull (HasPartner (λ v w. v <ℤ w) a.now b.now) result }
{
    if b.is_empty() {
        return Strided::empty();
    }
    up_to(a, b.hi() - 1)
}

/// The members of `a` that some member of `b` is at least.
fn at_most(a: &Strided, b: &Strided) -> Strided
    ensures { IsHull (HasPartner (λ v w. v ≤ℤ w) a.now b.now) result }
{
    if b.is_empty() {
        return Strided::empty();
    }
    up_to(a, b.hi())
}

/// The members of `a` above some member of `b`.
fn greater(a: &Strided, b: &Strided) -> Strided
    ensures { IsHull (HasPartner (λ v w. w <ℤ v) a.now b.now) result }
{
    if b.is_empty() {
        return Strided::empty();
    }
    from(a, b.lo() + 1)
}

/// The members of `a` that some member of `b` is at most.
fn at_least(a: &Strided, b: &Strided) -> Strided
    ensures { IsHull (HasPartner (λ v w. w ≤ℤ v) a.now b.now) result }
{
    if b.is_empty() {
        return Strided::empty();
    }
    from(a, b.lo())
}

/// The members of `a` that are members of `b`.
fn equal(a: &Strided, b: &Strided) -> Strided
    ensures straight { IsHull (HasPartner (λ v w. v ≡ w) a.now b.now) result }
    ensures turned { IsHull (HasPartner (λ v w. w ≡ v) a.now b.now) result }
{
    a.meet(b)
}

/// The least strided set with the members of `a` that some member of `b` differs from.
fn unequal(a: &Strided, b: &Strided) -> Strided
    ensures straight { IsHull (HasPartner (λ v w. v ≢ w) a.now b.now) result }
    ensures turned { IsHull (HasPartner (λ v w. w ≢ v) a.now b.now) result }
{
    if b.is_empty() {
        return Strided::empty();
    }
    if b.lo() == b.hi() {
        return a.without(b.lo());
    }
    *a
}

/// The members of `a` that are at most `limit`.
fn up_to(a: &Strided, limit: i128) -> Strided
    ensures { IsExactly (λ v. Has a.now v × (v ≤ℤ limit)) result }
{
    if a.is_empty() {
        return *a;
    }
    a.meet(&Strided::range(a.lo(), limit.min(a.hi()), 1))
}

/// The members of `a` that are at least `limit`.
fn from(a: &Strided, limit: i128) -> Strided
    ensures { IsExactly (λ v. Has a.now v × (limit ≤ℤ v)) result }
{
    if a.is_empty() {
        return *a;
    }
    a.meet(&Strided::range(limit.max(a.lo()), a.hi(), 1))
}
