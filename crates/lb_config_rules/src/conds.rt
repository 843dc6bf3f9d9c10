ghost use Rattle.std.specs.Prelude.{◌≡◌, IfOk};
ghost use Rattle.std.specs.Arc.{arc_value};
ghost use Rattle.lb_config_rules.specs.Groups.{acl_by, cond_by, term_by, terms_by};

use crate::named_acls::NamedAcls;
use lb_acl::{Acl, Cond, Conjunction, Term};
use lb_config_conditions::{Alternative, UnresolvedAcl, UnresolvedCond, UnresolvedTerm};
use std::alloc::{AllocError, Global};
use std::sync::Arc;

/// The condition with its ACLs.
pub(crate) fn resolved(
    alloc: Global,
    acls: &NamedAcls,
    cond: UnresolvedCond,
) -> Result<Cond, AllocError>
    ensures { IfOk result (λ resolved. resolved ≡ cond_by acls.now cond) }
{
    let polarity = cond.polarity();
    let mut alternatives = Vec::new(alloc);
    for alternative in cond.into_alternatives() {
        let terms = conjunction(alloc, acls, alternative)?;
        alternatives.push(terms)?;
    }
    Ok(Cond::new(polarity, alternatives))
}

fn conjunction(
    alloc: Global,
    acls: &NamedAcls,
    alternative: Alternative,
) -> Result<Conjunction, AllocError>
    ensures { IfOk result (λ conjunction. conjunction ≡ terms_by acls.now alternative) }
{
    let mut terms = Vec::new(alloc);
    for unresolved in alternative.into_terms() {
        let resolved = term(alloc, acls, unresolved)?;
        terms.push(resolved)?;
    }
    Ok(Conjunction::new(terms))
}

fn term(alloc: Global, acls: &NamedAcls, unresolved: UnresolvedTerm) -> Result<Term, AllocError>
    ensures { IfOk result (λ term. term ≡ term_by acls.now unresolved) }
{
    let UnresolvedTerm { is_negated, acl } = unresolved;
    Ok(Term::new(is_negated, acl_of(alloc, acls, acl)?))
}

fn acl_of(
    alloc: Global,
    acls: &NamedAcls,
    unresolved: UnresolvedAcl,
) -> Result<Arc<Acl>, AllocError>
    ensures { IfOk result (λ acl. arc_value acl ≡ acl_by acls.now unresolved) }
{
    match unresolved {
        UnresolvedAcl::Named(name) => acls.find(alloc, &name),
        UnresolvedAcl::Anonymous(line) => {
            let lines = vec![in alloc; line]?;
            Ok(Arc::new(alloc, Acl::new(lines))?)
        }
    }
}
