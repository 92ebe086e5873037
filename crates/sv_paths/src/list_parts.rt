// The obligations of a design, part by part.
ghost use Rattle.std.specs.Prelude.{◌≡◌, [], ◌+◌, ◌<◌, ◌≤◌, ◌++◌, length, map, flat_map, All};
ghost use Rattle.std.specs.Prelude.{IfOk, IfErr, OnOk, OnErr};
ghost use Rattle.sv_flat.specs.Processes.{signal_numbers};
ghost use Rattle.sv_flat.specs.Views.{design_of};
ghost use Rattle.sv_design.specs.Designs.{IsDesign};
ghost use Rattle.sv_paths.specs.Answers.{Answers, Told};
ghost use Rattle.sv_obl.specs.DesignQueries.{IsQueryOf, IsPlaced};
ghost use Rattle.sv_paths.specs.Driven.{IsDriven};
ghost use Rattle.sv_paths.specs.Limits.{excess};
ghost use Rattle.sv_paths.specs.ListLines.{list_text};
ghost use Rattle.sv_paths.specs.ListParts.{IsAt, ArePathsOf, AreCounted, lines_left};
ghost use Rattle.sv_obl.specs.MarkedBodies.{AreBodiesOf};
ghost use Rattle.sv_obl.specs.Obligations.{selector_obligations};
ghost use Rattle.sv_obl.specs.Views.{obligation_of};

use crate::faults::{MOST_OBLIGATIONS, OblFault};
use crate::list_texts::{NumberedLines, push_paths, push_queries};
use crate::selectors::all_selectors;
use crate::target_paths::TargetPaths;
use crate::targets::{DrivenPaths, driven_paths};
use std::alloc::Global;
use sv_design::Design;
use sv_flat::SigId;
use sv_obl::{Bodies, Query};

/// The obligations of a design in parts: those of one target after the other, in signal order, and
/// then those of selectors; as values, or as `secv list` prints them. It borrows the bodies of the
/// processes, and holds how many obligations the targets so far have. A part is to be let go before
/// the next is made, so that no more than one stands in memory.
#[derive(Drop)]
pub struct Listing<'b, 'a> {
    pub bodies: &'b Bodies<'a>,
    pub count: u32,
}

// The paths of the target that comes next, if a process drives it, and how many obligations there
// are with those of this target.
#[derive(Drop)]
struct Next<'d, 'b, 'a> {
    paths: Option<DrivenPaths<'d, 'b, 'a>>,
    count: u32,
}

impl<'b, 'a> Listing<'b, 'a> {
    /// The listing of a design, whose bodies these are, before its first target.
    pub fn new(design: &Design, bodies: &'b Bodies<'a>) -> Listing<'b, 'a>
        requires bodies { AreBodiesOf (design_of design.now) bodies.now }
        ensures at { IsAt (design_of design.now) 0 result }
        ensures all { lines_left (design_of design.now) 0 ≡ list_text (design_of design.now) }
    {
        Listing { bodies, count: 0 }
    }

    // What comes next. The listing stays where it is.
    fn next_paths<'d>(
        &self,
        alloc: Global,
        design: &'d Design,
        target: SigId,
    ) -> Result<Next<'d, 'b, 'a>, OblFault>
        requires known { target.0 < length design.now.signals.items }
        requires at { IsAt (design_of design.now) target.0 self.now }
        ensures driven { IfOk result
            (λ next. IsDriven (design_of design.now) target.0 self.now.count next.paths) }
        ensures counted { IfOk result
            (λ next. AreCounted (design_of design.now) (target.0 + 1) next.count) }
        ensures design { IsDesign (design_of design.now) }
        ensures told { IfErr result (Told (excess (design_of design.now))) }
    {
        match driven_paths(alloc, design, self.bodies, target, self.count as usize)? {
            Some(driven) => {
                let count = self.count + driven.paths.len() as u32;
                Ok(Next {
                    paths: Some(driven),
                    count,
                })
            }
            None => Ok(Next {
                paths: None,
                count: self.count,
            }),
        }
    }

    /// Passes over the target that comes next: its obligations are counted, and none is made. An
    /// error where it exceeds a limit, or where memory runs out; the listing stays before it then.
    pub fn pass_target(
        &mut self,
        alloc: Global,
        design: &Design,
        target: SigId,
    ) -> Result<(), OblFault>
        requires known { target.0 < length design.now.signals.items }
        requires at { IsAt (design_of design.now) target.0 self.old }
        ensures next { OnOk result (IsAt (design_of design.now) (target.0 + 1) self.new) }
        ensures stays { OnErr result (self.new ≡ self.old) }
        ensures told { IfErr result (Told (excess (design_of design.now))) }
    {
        let next = self.next_paths(alloc, design, target)?;
        let count = next.count;
        drop(next);
        self.count = count;
        Ok(())
    }

    /// The paths of the target that comes next, which give its obligations one by one; an error
    /// where it exceeds a limit, or where memory runs out, and then the listing stays before it.
    pub fn target_paths<'d>(
        &mut self,
        alloc: Global,
        design: &'d Design,
        target: SigId,
    ) -> Result<TargetPaths<'d, 'b, 'a>, OblFault>
        requires known { target.0 < length design.now.signals.items }
        requires at { IsAt (design_of design.now) target.0 self.old }
        ensures paths { IfOk result (ArePathsOf (design_of design.now)) }
        ensures target { IfOk result (λ paths. paths.target ≡ target) }
        ensures next { OnOk result (IsAt (design_of design.now) (target.0 + 1) self.new) }
        ensures stays { OnErr result (self.new ≡ self.old) }
        ensures told { IfErr result (Told (excess (design_of design.now))) }
    {
        let Next { paths, count } = self.next_paths(alloc, design, target)?;
        self.count = count;
        Ok(TargetPaths { target, paths })
    }

    /// The lines of the target that comes next; an error where it exceeds a limit, or where memory
    /// runs out, and then the listing stays before it.
    pub fn target_lines(
        &mut self,
        alloc: Global,
        design: &Design,
        target: SigId,
    ) -> Result<Vec<u8>, OblFault>
        requires known { target.0 < length design.now.signals.items }
        requires at { IsAt (design_of design.now) target.0 self.old }
        ensures part { IfOk result (λ part. lines_left (design_of design.now) target.0
            ≡ part.items ++ lines_left (design_of design.now) (target.0 + 1)) }
        ensures next { OnOk result (IsAt (design_of design.now) (target.0 + 1) self.new) }
        ensures stays { OnErr result (self.new ≡ self.old) }
        ensures told { IfErr result (Told (excess (design_of design.now))) }
    {
        let mut lines = NumberedLines::after(alloc, self.count);
        let next = self.next_paths(alloc, design, target)?;
        push_paths(alloc, &mut lines, design, target, &next.paths)?;
        let count = next.count;
        drop(next);
        self.count = count;
        Ok(lines.text)
    }

    /// The obligations of selectors, behind those of all targets, each one of the design's; an
    /// error where they are too many, or where memory runs out.
    pub fn selector_queries(&self, alloc: Global, design: &Design) -> Result<Vec<Query>, OblFault>
        requires at { IsAt (design_of design.now) (length design.now.signals.items) self.now }
        ensures listed { IfOk result (λ queries. map obligation_of queries.items
            ≡ flat_map (selector_obligations [] (design_of design.now))
            (signal_numbers (design_of design.now))) }
        ensures queries { IfOk result (λ queries.
            All (IsQueryOf (design_of design.now)) (map obligation_of queries.items)) }
        ensures placed { IfOk result (λ queries. All IsPlaced (map obligation_of queries.items)) }
        ensures few { IfOk result (λ queries. self.now.count + length queries.items ≤ 65536) }
        ensures excess { Answers (excess (design_of design.now)) result }
    {
        let queries = all_selectors(alloc, design)?;
        if queries.len() > MOST_OBLIGATIONS - self.count as usize {
            return Err(OblFault::Many);
        }
        Ok(queries)
    }

    /// The lines of selectors, behind those of all targets; an error where they are too many, or
    /// where memory runs out.
    pub fn selector_lines(&self, alloc: Global, design: &Design) -> Result<Vec<u8>, OblFault>
        requires at { IsAt (design_of design.now) (length design.now.signals.items) self.now }
        ensures part { IfOk result (λ part. part.items
            ≡ lines_left (design_of design.now) (length design.now.signals.items)) }
        ensures excess { Answers (excess (design_of design.now)) result }
    {
        let mut lines = NumberedLines::after(alloc, self.count);
        let queries = self.selector_queries(alloc, design)?;
        push_queries(alloc, &mut lines, design.signals(), &queries)?;
        Ok(lines.text)
    }
}
