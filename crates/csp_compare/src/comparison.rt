//! What a comparison goes by, and what it finds.
use crate::comparing::Answer;
use crate::differences::Difference;
use crate::directives::{effective_directives, shape_among};
use crate::draft::Draft;
use crate::natural::{STRANGEST, is_over_https, strangeness};
use csp_answer::{NamedAnswers, answers_of};
use csp_branch::Walker;
use csp_facts::{Shape, shape_at, shape_number, vocabulary_of};
use csp_formula::laws::a_formula_is_what_the_policy_allows;
use csp_model::{Check, List, Memory, Name, PolicyList};
use csp_proof::laws::what_is_accepted_is_so;
use csp_search::{AnsweredLists, Found, Question, probe, search};
use std::alloc::Global;
use std::collections::{BTreeMap, BTreeSet};

// How many shapes there are.
const SHAPE_COUNT: u8 = 189;

// Two lists that are compared. A walker of the names that both answer by goes with them.
#[derive(Drop)]
pub(crate) struct Comparison<'a> {
    alloc: Global,
    lists: AnsweredLists<'a>,
    // The numbers of the second list's enforced policies.
    policies: Vec<u32>,
}

// What comes of the pairs of one shape with each of the enforced policies.
#[derive(Drop)]
enum ShapeOutcome {
    // The numbers of the trees that have the nodes for them.
    Shown { numbers: Vec<u32> },
    // A check that the first list allows and the second doesn't.
    Refuted { check: Check },
}

impl<'a> Comparison<'a> {
    ghost use Rattle.std.specs.Prelude.{◌≡◌, ◌<◌, ◌+◌, ◌^◌, length, map, slice_get};
    ghost use Rattle.std.specs.Prelude.{IfOk, IfSome, IsTrue, MatchOption, OnOk, Some};
    ghost use Rattle.csp_answer.specs.Tables.{AreKinds};
    ghost use Rattle.csp_compare.specs.Answers.{IsAnswer};
    ghost use Rattle.csp_compare.specs.Comparisons as spec;
    ghost use Rattle.csp_compare.specs.Differences.{AreDifferences, AreIncluded, DiffersAmong};
    ghost use Rattle.csp_compare.specs.Differences.{DiffersAt, IsDifferenceAmong, IsIncludedAt};
    ghost use Rattle.csp_compare.specs.Drafts.{Adds, at_shape};
    ghost use Rattle.csp_facts.specs.Numbers.{number};
    ghost use Rattle.csp_facts.specs.Shapes.{is_shape};
    ghost use Rattle.csp_model.specs.Policies.{IsReadable};
    ghost use Rattle.csp_proof.specs.Pairs.{enforced};

    pub(crate) fn new(
        alloc: Global,
        first: &'a PolicyList,
        second: &'a PolicyList,
    ) -> Result<(Comparison<'a>, Walker), Memory>
        requires first { IsReadable first.now }
        requires second { IsReadable second.now }
        ensures { IfOk result (spec.IsComparison first.now second.now) }
    {
        let vocabulary = vocabulary_of(alloc, first, second)?;
        let NamedAnswers { names, table } = answers_of(alloc, first, second, &vocabulary, &[])?;
        let room = names.atoms().len();
        let walker = Walker::new(alloc, names, room)?;
        let lists = AnsweredLists {
            first,
            second,
            vocabulary,
            table,
        };
        let policies = second.enforced(alloc)?;
        Ok((
            Comparison {
                alloc,
                lists,
                policies,
            },
            walker,
        ))
    }

    // Probes all shapes for a check that a person would think of. Where none is found it goes over the shapes
    // in the order of their numbers, and a search may still find one.
    pub(crate) fn answer(&self, walker: &mut Walker) -> Result<Answer, Memory>
        requires { spec.IsReady self.now walker.old }
        ensures { IfOk result (IsAnswer self.now.lists.first.now self.now.lists.second.now) }
    {
        if let Some(check) = self.probe_shapes(walker, effective_directives())? {
            return Ok(Answer::Counterexample { check });
        }
        let mut draft = Draft::new(self.alloc);
        let mut known = BTreeMap::new(self.alloc);
        for number in 0..SHAPE_COUNT {
            let Some(shape) = shape_at(number) else {
                unreachable!()
            };
            if let Some(check) = self.show_shape(walker, shape, &mut draft, &mut known)? {
                return Ok(Answer::Counterexample { check });
            }
        }
        what_is_accepted_is_so();
        let proof = draft.into_proof();
        Ok(Answer::Subsumed { proof })
    }

    // The kinds that are known under one directive serve the next ones.
    pub(crate) fn differences(&self, walker: &mut Walker) -> Result<List<Difference>, Memory>
        requires { spec.IsReady self.now walker.old }
        ensures { IfOk result
            (AreDifferences self.now.lists.first.now self.now.lists.second.now) }
    {
        let mut known = BTreeSet::new(self.alloc);
        let mut differences = List::new(self.alloc);
        for directive in effective_directives() {
            let found = self.difference_among(walker, &[*directive], &mut known)?;
            if let Some(check) = found {
                let directive = *directive;
                differences.push(Difference { directive, check })?;
            }
        }
        Ok(differences)
    }

    // A check with one of these effective directives that the first list allows and the second doesn't, if
    // there is one. At each shape of a known kind the second list allows what the first allows.
    pub(crate) fn difference_among(
        &self,
        walker: &mut Walker,
        effective: &[Name],
        known: &mut BTreeSet<usize>,
    ) -> Result<Option<Check>, Memory>
        requires ready { spec.IsReady self.now walker.old }
        requires known { AreIncluded self.now known.old }
        ensures known { OnOk result (AreIncluded self.now known.new) }
        ensures found { IfOk result
            (IsDifferenceAmong effective.now self.now.lists.first.now self.now.lists.second.now) }
        ensures walker { OnOk result (walker.new ≡ walker.old) }
    {
        a_formula_is_what_the_policy_allows();
        if let Some(check) = self.probe_shapes(walker, effective)? {
            return Ok(Some(check));
        }
        for number in 0..SHAPE_COUNT {
            let Some(shape) = shape_among(number, effective) else {
                continue;
            };
            if let Some(check) = self.difference_at(walker, shape, known)? {
                return Ok(Some(check));
            }
        }
        Ok(None)
    }

    // A check of the shape that the first list allows and the second doesn't. Where there is none the shape's
    // kind becomes known.
    fn difference_at(
        &self,
        walker: &mut Walker,
        shape: Shape,
        known: &mut BTreeSet<usize>,
    ) -> Result<Option<Check>, Memory>
        requires ready { spec.IsReady self.now walker.old }
        requires listed { IsTrue (is_shape shape) }
        requires known { AreIncluded self.now known.old }
        ensures known { OnOk result (AreIncluded self.now known.new) }
        ensures found { IfOk result (λ found.
            MatchOption found (IsIncludedAt self.now shape) (DiffersAt self.now shape)) }
        ensures walker { OnOk result (walker.new ≡ walker.old) }
    {
        let kind = self.kind(shape);
        if known.contains(&kind) {
            return Ok(None);
        }
        match self.search_shape(walker, shape, &mut Draft::new(self.alloc))? {
            ShapeOutcome::Shown { .. } => {
                known.insert(kind)?;
                Ok(None)
            }
            ShapeOutcome::Refuted { check } => Ok(Some(check)),
        }
    }

    // The kind of a shape. At shapes of one kind each policy answers the same.
    fn kind(&self, shape: Shape) -> usize
        requires kinds { AreKinds self.now.lists.table }
        requires listed { IsTrue (is_shape shape) }
        ensures { slice_get self.now.lists.table.kinds (number shape) ≡ Some result }
    {
        let Some(kind) = self.lists.table.kinds.get(usize::from(shape_number(shape))) else {
            unreachable!()
        };
        *kind
    }

    // A check with one of these effective directives that the first list allows and the second doesn't, if
    // probing finds one. It is of the least strange shape. Each kind of shapes is probed once.
    fn probe_shapes(&self, walker: &mut Walker, effective: &[Name]) -> Result<Option<Check>, Memory>
        requires { spec.IsReady self.now walker.old }
        ensures found { IfOk result (λ found. IfSome found
            (DiffersAmong effective.now self.now.lists.first.now self.now.lists.second.now)) }
        ensures walker { OnOk result (walker.new ≡ walker.old) }
    {
        let over_https = is_over_https(self.lists.second);
        let mut probed = BTreeSet::new(self.alloc);
        for strange in 0..=STRANGEST {
            for number in 0..SHAPE_COUNT {
                let Some(shape) = shape_among(number, effective) else {
                    continue;
                };
                if strangeness(shape, over_https) == strange
                    && probed.insert(self.kind(shape))?
                    && let Some(check) = self.probe_shape(walker, shape)?
                {
                    return Ok(Some(check));
                }
            }
        }
        Ok(None)
    }

    // A check of the shape that the first list allows and the second doesn't, if probing finds one.
    fn probe_shape(&self, walker: &mut Walker, shape: Shape) -> Result<Option<Check>, Memory>
        requires ready { spec.IsReady self.now walker.old }
        requires listed { IsTrue (is_shape shape) }
        ensures found { IfOk result (λ found. IfSome found (DiffersAt self.now shape)) }
        ensures walker { OnOk result (walker.new ≡ walker.old) }
    {
        for policy in &self.policies {
            let question = Question {
                lists: &self.lists,
                shape,
                policy: *policy,
            };
            if let Some(check) = probe(self.alloc, question, walker)? {
                return Ok(Some(check));
            }
        }
        Ok(None)
    }

    // Adds the trees of a shape. Those of the first shape of a kind are searched for, and the others of the
    // kind share their nodes. A check, where there is one that the first list allows and the second doesn't.
    fn show_shape(
        &self,
        walker: &mut Walker,
        shape: Shape,
        draft: &mut Draft,
        known: &mut BTreeMap<usize, Vec<u32>>,
    ) -> Result<Option<Check>, Memory>
        requires ready { spec.IsReady self.now walker.old }
        requires listed { IsTrue (is_shape shape) }
        requires room { length draft.old + length self.now.policies.items < 2 ^ 32 }
        requires known { spec.AreKnown self.now draft.old known.old }
        ensures step { IfOk result (spec.IsStep self.now shape draft.old draft.new known.new) }
        ensures walker { OnOk result (walker.new ≡ walker.old) }
    {
        let kind = self.kind(shape);
        if let Some(numbers) = known.get(&kind) {
            self.share_shape(shape, numbers.as_slice(), draft)?;
            return Ok(None);
        }
        match self.search_shape(walker, shape, draft)? {
            ShapeOutcome::Shown { numbers } => {
                known.insert(kind, numbers)?;
                Ok(None)
            }
            ShapeOutcome::Refuted { check } => Ok(Some(check)),
        }
    }

    // Searches for a tree for each policy, and adds it.
    fn search_shape(
        &self,
        walker: &mut Walker,
        shape: Shape,
        draft: &mut Draft,
    ) -> Result<ShapeOutcome, Memory>
        requires ready { spec.IsReady self.now walker.old }
        requires listed { IsTrue (is_shape shape) }
        requires room { length draft.old + length self.now.policies.items < 2 ^ 32 }
        ensures outcome { IfOk result (spec.IsOutcome self.now shape draft.old draft.new) }
        ensures walker { OnOk result (walker.new ≡ walker.old) }
    {
        let mut numbers = Vec::new(self.alloc);
        for policy in &self.policies {
            let question = Question {
                lists: &self.lists,
                shape,
                policy: *policy,
            };
            match search(self.alloc, question, walker)? {
                Found::Nodes { nodes } => {
                    numbers.push(draft.add(shape_number(shape), *policy, nodes)?)?;
                }
                Found::Check { check } => return Ok(ShapeOutcome::Refuted { check }),
            }
        }
        Ok(ShapeOutcome::Shown { numbers })
    }

    // Adds a tree for each policy, which shares the nodes of the tree of the number beside it.
    fn share_shape(&self, shape: Shape, numbers: &[u32], draft: &mut Draft) -> Result<(), Memory>
        requires second { IsReadable self.now.lists.second.now }
        requires policies { self.now.policies.items ≡ enforced self.now.lists.second.now }
        requires listed { IsTrue (is_shape shape) }
        requires room { length draft.old + length self.now.policies.items < 2 ^ 32 }
        requires shown { spec.AreShown self.now draft.old shape numbers.now }
        ensures { OnOk result (Adds (spec.lists_of self.now)
            (map (at_shape shape) self.now.policies.items) draft.old draft.new) }
    {
        for place in 0..numbers.len() {
            draft.share(shape_number(shape), self.policies[place], numbers[place])?;
        }
        Ok(())
    }
}
