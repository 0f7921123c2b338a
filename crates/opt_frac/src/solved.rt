ghost use Rattle.std.specs.Prelude.{◌↔◌, All, IsTrue};
ghost use Rattle.opt_sums.specs.Entries.{IsRising};
ghost use Rattle.opt_frac.specs.Equations.{IsSolved, MayStand, equation_of};

/// Whether an equation may be made of this basic variable, lead and terms: the lead is at least 1, the terms go by rising
/// variable, none of them is 0 or at the basic variable, and no number is -2^127.
pub fn is_solved(basic: u32, lead: i128, terms: &[(u32, i128)]) -> bool
    ensures { IsTrue result ↔ IsSolved (equation_of basic lead terms.now) }
{
    lead >= 1 && is_rising(terms) && may_all_stand(basic, terms)
}

/// Whether the variables rise from term to term.
fn is_rising(terms: &[(u32, i128)]) -> bool
    ensures { IsTrue result ↔ IsRising terms.now }
{
    for i in 1..terms.len() {
        if terms[i - 1].0 >= terms[i].0 {
            return false;
        }
    }
    true
}

/// Whether each term may stand in an equation that is solved for this variable.
fn may_all_stand(basic: u32, terms: &[(u32, i128)]) -> bool
    ensures { IsTrue result ↔ All (MayStand basic) terms.now }
{
    for term in terms {
        if !may_stand(basic, term) {
            return false;
        }
    }
    true
}

/// Whether the term is not 0, at another variable, and not -2^127.
fn may_stand(basic: u32, term: &(u32, i128)) -> bool
    ensures { IsTrue result ↔ MayStand basic term.now }
{
    term.0 != basic && term.1 != 0 && term.1 != i128::MIN
}
