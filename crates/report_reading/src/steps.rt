//! What each line of a report text gives to a draft.
ghost use Rattle.std.specs.Prelude.{◌≡◌, ◌-◌, Ok, OnOk, IfErr};
ghost use Rattle.report_reading.specs.LineFields.{texts, spaced_fields};
ghost use Rattle.report_reading.specs.LineSteps.{graph_step, model_step, third_step, lower_step, upper_step, end_step, FaultsAs};
ghost use Rattle.report_reading.specs.ListSteps.{after_cert, before_items, before_tokens, before_runs, cert_step, path_or_cert_step, item_step, trail_step, trail_token_step, safe_or_end_step, run_step};
ghost use Rattle.report_reading.specs.BadLines.{step};

use crate::cert_lines::{add_item, cert_in};
use crate::draft::{Draft, Place};
use crate::fields::{field_at, has_words, has_words_and_more, spaced_fields};
use crate::head_lines::{bound_in, graph_in, mark_in, model_in, refusal_in};
use crate::numbers::number_in;
use crate::path_lines::{path_after, run_after};
use crate::read_fault::LineFault::{self, Bad};
use crate::read_fault::ReadWhy::{BadForm, BadNumber};
use crate::trail_lines::{token_in, trail_in};
use dag_net::IdLists;
use graph_text::Labels;
use report_terms::Mark;
use std::alloc::Global;

/// The place after a certificate.
fn after_cert(mark: Mark) -> Place
    ensures { result ≡ after_cert mark }
{
    match mark {
        Mark::Optimal | Mark::Infeasible => Place::SafeOrEnd,
        Mark::Bounds => Place::TrailHead,
    }
}

/// The place before so many items of a certificate.
fn before_items(mark: Mark, count: u64) -> Place
    ensures { result ≡ before_items mark count }
{
    if count == 0 {
        after_cert(mark)
    } else {
        Place::Item(count)
    }
}

/// The place before so many tokens of a trail.
fn before_tokens(count: u64) -> Place
    ensures { result ≡ before_tokens count }
{
    if count == 0 {
        Place::SafeOrEnd
    } else {
        Place::TrailToken(count)
    }
}

/// The place before so many safe runs.
fn before_runs(count: u64) -> Place
    ensures { result ≡ before_runs count }
{
    if count == 0 {
        Place::End
    } else {
        Place::Run(count)
    }
}

impl Draft {
    /// Takes the next line.
    pub(crate) fn take_line(
        &mut self,
        alloc: Global,
        labels: &Labels,
        line: &[u8],
    ) -> Result<(), LineFault>
        ensures ok { OnOk result (step labels.now self.old line.now ≡ Ok self.new) }
        ensures err { IfErr result (FaultsAs (step labels.now self.old line.now)) }
    {
        let fields = spaced_fields(alloc, line)?;
        match self.place {
            Place::Graph => self.take_graph(alloc, line),
            Place::Model => self.take_model(&fields),
            Place::Third => self.take_third(&fields),
            Place::Lower => self.take_lower(&fields),
            Place::Upper => self.take_upper(&fields),
            Place::PathOrCert => self.take_path_or_cert(alloc, labels, &fields),
            Place::Item(left) => self.take_item(labels, left, &fields),
            Place::TrailHead => self.take_trail(alloc, &fields),
            Place::TrailToken(left) => self.take_token(left, &fields),
            Place::SafeOrEnd => self.take_safe_or_end(alloc, &fields),
            Place::Run(left) => self.take_run(alloc, labels, left, &fields),
            Place::End => self.take_end(&fields),
            Place::Nothing => Err(Bad(BadForm)),
        }
    }

    /// Takes the number and the name of the block.
    fn take_graph(&mut self, alloc: Global, line: &[u8]) -> Result<(), LineFault>
        ensures ok { OnOk result (graph_step self.old line.now ≡ Ok self.new) }
        ensures err { IfErr result (FaultsAs (graph_step self.old line.now)) }
    {
        let (index, name) = graph_in(alloc, line)?;
        self.index = index;
        self.name = name;
        self.place = Place::Model;
        Ok(())
    }

    /// Takes the model.
    fn take_model(&mut self, fields: &[&[u8]]) -> Result<(), LineFault>
        ensures ok { OnOk result (model_step self.old (texts fields.now) ≡ Ok self.new) }
        ensures err { IfErr result (FaultsAs (model_step self.old (texts fields.now))) }
    {
        self.mode = model_in(fields)?;
        self.place = Place::Third;
        Ok(())
    }

    /// Takes a refusal, or the mark.
    fn take_third(&mut self, fields: &[&[u8]]) -> Result<(), LineFault>
        ensures ok { OnOk result (third_step self.old (texts fields.now) ≡ Ok self.new) }
        ensures err { IfErr result (FaultsAs (third_step self.old (texts fields.now))) }
    {
        if has_words(fields, &[b"refused"], 3) {
            self.refusal = Some(refusal_in(fields)?);
            self.place = Place::End;
        } else {
            self.solved.mark = mark_in(fields)?;
            self.place = Place::Lower;
        }
        Ok(())
    }

    /// Takes the lower bound.
    fn take_lower(&mut self, fields: &[&[u8]]) -> Result<(), LineFault>
        ensures ok { OnOk result (lower_step self.old (texts fields.now) ≡ Ok self.new) }
        ensures err { IfErr result (FaultsAs (lower_step self.old (texts fields.now))) }
    {
        self.solved.lower = bound_in(b"lower", fields)?;
        self.place = Place::Upper;
        Ok(())
    }

    /// Takes the upper bound.
    fn take_upper(&mut self, fields: &[&[u8]]) -> Result<(), LineFault>
        ensures ok { OnOk result (upper_step self.old (texts fields.now) ≡ Ok self.new) }
        ensures err { IfErr result (FaultsAs (upper_step self.old (texts fields.now))) }
    {
        self.solved.upper = bound_in(b"upper", fields)?;
        self.place = Place::PathOrCert;
        Ok(())
    }

    /// Takes a path, or the certificate.
    fn take_path_or_cert(
        &mut self,
        alloc: Global,
        labels: &Labels,
        fields: &[&[u8]],
    ) -> Result<(), LineFault>
        ensures ok { OnOk result (path_or_cert_step labels.now self.old (texts fields.now) ≡ Ok self.new) }
        ensures err { IfErr result (FaultsAs (path_or_cert_step labels.now self.old (texts fields.now))) }
    {
        if !has_words_and_more(fields, &[b"path"], 4) {
            return self.take_cert(alloc, labels, fields);
        }
        let (path, weight) = path_after(alloc, labels, &self.solved.paths, fields)?;
        self.solved.paths.push(path, weight)?;
        self.place = Place::PathOrCert;
        Ok(())
    }

    /// Takes the certificate.
    fn take_cert(
        &mut self,
        alloc: Global,
        labels: &Labels,
        fields: &[&[u8]],
    ) -> Result<(), LineFault>
        ensures ok { OnOk result (cert_step labels.now self.old (texts fields.now) ≡ Ok self.new) }
        ensures err { IfErr result (FaultsAs (cert_step labels.now self.old (texts fields.now))) }
    {
        let (cert, count) = cert_in(alloc, labels, fields)?;
        self.solved.cert = cert;
        self.place = before_items(self.solved.mark, count);
        Ok(())
    }

    /// Takes an item of the certificate, the first of so many.
    fn take_item(&mut self, labels: &Labels, left: u64, fields: &[&[u8]]) -> Result<(), LineFault>
        ensures ok { OnOk result (item_step labels.now self.old left (texts fields.now) ≡ Ok self.new) }
        ensures err { IfErr result (FaultsAs (item_step labels.now self.old left (texts fields.now))) }
    {
        add_item(labels, &mut self.solved.cert, fields)?;
        self.place = before_items(self.solved.mark, left.saturating_sub(1));
        Ok(())
    }

    /// Takes the trail.
    fn take_trail(&mut self, alloc: Global, fields: &[&[u8]]) -> Result<(), LineFault>
        ensures ok { OnOk result (trail_step self.old (texts fields.now) ≡ Ok self.new) }
        ensures err { IfErr result (FaultsAs (trail_step self.old (texts fields.now))) }
    {
        if !has_words(fields, &[b"trail"], 4) {
            return Err(Bad(BadForm));
        }
        let (slots, limit) = (field_at(fields, 1), field_at(fields, 2));
        let (trail, count) = trail_in(alloc, slots, limit, field_at(fields, 3))?;
        self.solved.trail = Some(trail);
        self.place = before_tokens(count);
        Ok(())
    }

    /// Takes a token of the trail, the first of so many.
    fn take_token(&mut self, left: u64, fields: &[&[u8]]) -> Result<(), LineFault>
        ensures ok { OnOk result (trail_token_step self.old left (texts fields.now) ≡ Ok self.new) }
        ensures err { IfErr result (FaultsAs (trail_token_step self.old left (texts fields.now))) }
    {
        let token = token_in(fields)?;
        if let Some(trail) = &mut self.solved.trail {
            trail.tokens.push(token)?;
        }
        self.place = before_tokens(left.saturating_sub(1));
        Ok(())
    }

    /// Takes the number of safe runs, or the end.
    fn take_safe_or_end(&mut self, alloc: Global, fields: &[&[u8]]) -> Result<(), LineFault>
        ensures ok { OnOk result (safe_or_end_step self.old (texts fields.now) ≡ Ok self.new) }
        ensures err { IfErr result (FaultsAs (safe_or_end_step self.old (texts fields.now))) }
    {
        if !has_words(fields, &[b"safe"], 2) {
            return self.take_end(fields);
        }
        let count = number_in(0, u64::MAX, field_at(fields, 1)).ok_or(Bad(BadNumber))?;
        self.solved.safe = Some(IdLists::new(alloc));
        self.place = before_runs(count);
        Ok(())
    }

    /// Takes a safe run, the first of so many.
    fn take_run(
        &mut self,
        alloc: Global,
        labels: &Labels,
        left: u64,
        fields: &[&[u8]],
    ) -> Result<(), LineFault>
        ensures ok { OnOk result (run_step labels.now self.old left (texts fields.now) ≡ Ok self.new) }
        ensures err { IfErr result (FaultsAs (run_step labels.now self.old left (texts fields.now))) }
    {
        match &mut self.solved.safe {
            Some(runs) => runs.push(run_after(alloc, labels, runs, fields)?)?,
            None => {
                run_after(alloc, labels, &IdLists::new(alloc), fields)?;
            }
        }
        self.place = before_runs(left.saturating_sub(1));
        Ok(())
    }

    /// Takes the end.
    fn take_end(&mut self, fields: &[&[u8]]) -> Result<(), LineFault>
        ensures ok { OnOk result (end_step self.old (texts fields.now) ≡ Ok self.new) }
        ensures err { IfErr result (FaultsAs (end_step self.old (texts fields.now))) }
    {
        if !has_words(fields, &[b"end"], 1) {
            return Err(Bad(BadForm));
        }
        self.place = Place::Nothing;
        Ok(())
    }
}
