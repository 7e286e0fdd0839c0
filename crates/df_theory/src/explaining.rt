//! How bounds are explained by true literals. Where a row has slack, weaker bounds that suffice are
//! taken in place of the tightest ones: they are older, or those of other atoms.

use crate::choosing::{Choice, Facts, Giver, Limits};
use crate::explanation::{Explained, Explanation, Member, Row, Source, Used};
use df_clauses::Literal;
use df_linear::Meaning;
use df_simplex::{Bound, Cause, Derivation, Need};
use std::alloc::AllocError;

/// A bound that is needed so many times, and how far it may be past its constant.
#[derive(Clone, Copy)]
struct Demand {
    factor: i128,
    number: usize,
    bound: Bound,
}

/// A member, and what it leaves of the slack.
#[derive(Clone, Copy)]
struct Taken {
    member: Member,
    left: i128,
}

/// The sum of the bounds' constants, each so many times.
fn sum_of(demands: &[Demand], first: i128) -> Option<i128> {
    let mut sum = first;
    for demand in demands {
        sum = sum.checked_add(demand.factor.checked_mul(demand.bound.constant)?)?;
    }
    Some(sum)
}

/// How much higher a sum may be so that, divided, it is at most what is wanted; without that, what it is
/// already.
fn slack_of(sum: i128, divisor: i128, wanted: Option<i128>) -> Option<i128> {
    let most = match wanted {
        Some(most) => most,
        None => sum.checked_div_euclid(divisor)?,
    };
    most.checked_mul(divisor)?
        .checked_add(divisor.checked_sub(1)?)?
        .checked_sub(sum)
}

impl<'a> Facts<'a> {
    /// The bounds that are needed, as they were at the limit.
    fn demands(&self, needs: &[Need], limits: Limits) -> Result<Option<Vec<Demand>>, AllocError> {
        let mut demands = Vec::with_capacity(self.alloc, needs.len())?;
        for need in needs {
            match self.demand(need, limits) {
                Some(demand) => demands.push(demand)?,
                None => return Ok(None),
            }
        }
        Ok(Some(demands))
    }

    fn demand(&self, need: &Need, limits: Limits) -> Option<Demand> {
        let number = self
            .theory
            .bounds
            .before(need.column, need.side, limits.bound)?;
        Some(Demand {
            factor: need.factor,
            number,
            bound: self.theory.bounds.get(number)?,
        })
    }

    /// The members of a combination: rows that suffice for the demands, where the sum of their
    /// constants may be higher by the slack.
    fn members(
        &self,
        explanation: &mut Explanation,
        demands: &[Demand],
        slack: i128,
        limits: Limits,
    ) -> Result<Option<Vec<Member>>, AllocError> {
        let mut members = Vec::with_capacity(self.alloc, demands.len().saturating_add(1))?;
        let mut left = slack;
        // Literals first: what they leave of the slack is known at once.
        for are_literals in [true, false] {
            for demand in demands {
                if matches!(demand.bound.cause, Cause::Literal(_)) != are_literals {
                    continue;
                }
                match self.member(explanation, demand, left, limits)? {
                    Some(taken) => {
                        left = taken.left;
                        members.push(taken.member)?;
                    }
                    None => return Ok(None),
                }
            }
        }
        Ok(Some(members))
    }

    /// A row that suffices for a demand, and what is left of the slack.
    fn member(
        &self,
        explanation: &mut Explanation,
        demand: &Demand,
        slack: i128,
        limits: Limits,
    ) -> Result<Option<Taken>, AllocError> {
        let share = match demand.bound.cause {
            Cause::Literal(_) => slack,
            Cause::Row(_) => slack / 2,
        };
        let allowed = share.checked_div(demand.factor).unwrap_or(0);
        let wanted = demand.bound.constant.saturating_add(allowed);
        let Some(choice) = self.choice(demand.number, wanted, limits) else {
            return Ok(None);
        };
        let (source, constant) = match choice {
            Choice::Literal(giver) => (
                Source::Literal(explanation.literal(self.by_equality(giver.used))?),
                giver.constant,
            ),
            Choice::Bound(number) => {
                explanation.want(number, wanted)?;
                (Source::Bound(number), wanted)
            }
        };
        let cost = constant
            .saturating_sub(demand.bound.constant)
            .saturating_mul(demand.factor);
        Ok(Some(Taken {
            member: Member {
                factor: demand.factor,
                source,
            },
            left: slack.saturating_sub(cost).max(0),
        }))
    }

    /// The members of a combination of bounds, and of a literal's row if one is given. Divided, its
    /// constant is to be at most what is wanted; without that, what it is already.
    fn combined(
        &self,
        explanation: &mut Explanation,
        derivation: &Derivation,
        also: Option<Giver>,
        wanted: Option<i128>,
        limits: Limits,
    ) -> Result<Option<Vec<Member>>, AllocError> {
        let Some(demands) = self.demands(&derivation.needs, limits)? else {
            return Ok(None);
        };
        let first = match also {
            Some(giver) => giver.constant,
            None => 0,
        };
        let slack = sum_of(&demands, first).and_then(|sum| slack_of(
            sum,
            derivation.divisor,
            wanted,
        ));
        let Some(slack) = slack else {
            return Ok(None);
        };
        let Some(mut members) = self.members(explanation, &demands, slack, limits)? else {
            return Ok(None);
        };
        if let Some(giver) = also {
            let source = Source::Literal(explanation.literal(giver.used)?);
            members.push(Member { factor: 1, source })?;
        }
        Ok(Some(members))
    }

    /// Derives a bound by the row that gave it. Whether it could.
    fn derive(
        &self,
        explanation: &mut Explanation,
        number: usize,
        wanted: i128,
        place: usize,
    ) -> Result<bool, AllocError> {
        let Some(bound) = self.theory.bounds.get(number) else {
            return Ok(false);
        };
        let Cause::Row(row) = bound.cause else {
            return Ok(false);
        };
        let Some(derivation) = self.theory.rows.needs_of(row, bound.column, bound.side)? else {
            return Ok(false);
        };
        let limits = Limits {
            bound: number,
            place,
        };
        let members = self.combined(explanation, &derivation, None, Some(wanted), limits)?;
        match members {
            Some(members) => {
                explanation.derive(number, derivation.divisor, members)?;
                Ok(true)
            }
            None => Ok(false),
        }
    }

    /// Derives all bounds that are wanted. Whether it could.
    fn derive_all(
        &self,
        explanation: &mut Explanation,
        limits: Limits,
    ) -> Result<bool, AllocError> {
        for _ in 0..limits.bound.saturating_add(1) {
            let Some((number, wanted)) = explanation.wanted.pop_last() else {
                break;
            };
            if !self.derive(explanation, number, wanted, limits.place)? {
                return Ok(false);
            }
        }
        Ok(true)
    }

    /// The clause that combinations of bounds refute, beside the row of a literal if one is given: the
    /// sum of the combinations is below 0.
    fn explained(
        &self,
        derivations: &[Derivation],
        also: Option<Giver>,
        limits: Limits,
    ) -> Result<Option<Explained>, AllocError> {
        let mut explanation = Explanation::new(self.alloc);
        self.explain(&mut explanation, derivations, also, limits)
    }

    /// The same, in an explanation that has nothing yet.
    fn explain(
        &self,
        explanation: &mut Explanation,
        derivations: &[Derivation],
        also: Option<Giver>,
        limits: Limits,
    ) -> Result<Option<Explained>, AllocError> {
        if self.combine_all(explanation, derivations, also, limits)? {
            explanation.finish().map(Some)
        } else {
            Ok(None)
        }
    }

    /// The last combinations, and all bounds that they want. Whether they could be derived.
    fn combine_all(
        &self,
        explanation: &mut Explanation,
        derivations: &[Derivation],
        also: Option<Giver>,
        limits: Limits,
    ) -> Result<bool, AllocError> {
        let wanted = match derivations {
            [_] => Some(-1),
            _ => None,
        };
        for derivation in derivations {
            let members = self.combined(explanation, derivation, also, wanted, limits)?;
            match members {
                Some(members) => explanation.end(derivation.divisor, members)?,
                None => return Ok(false),
            }
        }
        self.derive_all(explanation, limits)
    }

    /// The clause that is false where combinations of bounds have a sum below 0.
    pub fn conflict(&self, derivations: &[Derivation]) -> Result<Option<Explained>, AllocError> {
        let limits = Limits {
            bound: usize::MAX,
            place: usize::MAX,
        };
        self.explained(derivations, None, limits)
    }

    /// The clause by which a bound implies a literal that has this place on the trail.
    pub fn implication(
        &self,
        literal: Literal,
        number: usize,
        place: usize,
    ) -> Result<Option<Explained>, AllocError> {
        let (Some(bound), Meaning::Atom(atom)) = (
            self.theory.bounds.get(number),
            self.variables.meaning(literal.variable),
        ) else {
            return Ok(None);
        };
        let (_, constant) = atom.bound(!literal.positive);
        let also = Giver {
            used: Used {
                literal: literal.negation(),
                row: Row::Only,
                divisor: atom.divisor,
            },
            constant,
            level: 0,
        };
        let need = Need {
            factor: 1,
            column: bound.column,
            side: bound.side,
        };
        let limits = Limits {
            bound: number.saturating_add(1),
            place,
        };
        let derivation = Derivation {
            divisor: 1,
            needs: vec![in self.alloc; need]?,
        };
        let derivations = vec![in self.alloc; derivation]?;
        self.explained(&derivations, Some(also), limits)
    }
}
