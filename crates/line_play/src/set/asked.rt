//! Answers to questions about the links of a set.
ghost use Rattle.std.specs.Prelude.{◌≡◌, IfOk, OnOk, option_copied, option_map, slice_get};
ghost use Rattle.std.specs.List.{flat_map};
ghost use Rattle.line_filter.specs.Reporting.{TellsLines};
ghost use Rattle.line_tending.specs.Tended.{link_count};
ghost use Rattle.line_play.specs.SetDoing.{stood, answered, terminal_at, reset_at, Resets, state_at, value_at};
ghost use Rattle.line_play.specs.SetOrders.{plain_set_order, state, value, measures};
ghost use Rattle.line_play.specs.SetShowing.{counted, aborted_at, state_text, value_text, count_told, aborted_told, shown_of, shown_each, shown_held, shows, held_text, table_of, unsure_text};

use crate::link::texts::text_of;
use crate::set::measures::Since;
use crate::set::orders::SetOrder;
use crate::set::state::SetState;
use line_filter::Reports;
use script_ends::{Measure, Terminal, all_measures, state_line, value_line};
use std::alloc::{AllocError, Global};
use std::io;

impl SetState {
    /// The values that a link's counts start from.
    fn since(&self, link: usize) -> Option<&Since>
        ensures { option_copied result ≡ slice_get self.now.since.items link }
    {
        match self.since.get(link) {
            Some(since) => Some(since),
            None => None,
        }
    }

    /// The terminal of a link.
    pub(crate) fn terminal(&self, link: usize) -> Option<&Terminal>
        ensures { option_copied result ≡ terminal_at self.now.tender link }
    {
        match self.tender.set().terminal(link) {
            Some(terminal) => Some(terminal),
            None => None,
        }
    }

    /// Returns a count of a link; 0 if there is no such link.
    fn counted(&self, link: usize, measure: Measure) -> u64
        ensures { result ≡ counted measure (stood self.now) link }
    {
        let Some(since) = self.since(link) else {
            return 0;
        };
        let Some(terminal) = self.terminal(link) else {
            return 0;
        };
        since.count(terminal, measure)
    }

    /// The number of aborted proving periods of a link.
    fn aborted(&self, link: usize) -> u64
        ensures { result ≡ aborted_at (stood self.now) link }
    {
        let Some(since) = self.since(link) else {
            return 0;
        };
        let Some(terminal) = self.terminal(link) else {
            return 0;
        };
        since.aborted(terminal)
    }

    /// `measure reset` for a link.
    fn reset(&mut self, link: usize)
        ensures { stood self.new ≡ reset_at link (stood self.old) }
    {
        let Some(terminal) = self.terminal(link) else {
            return;
        };
        let since = Since::now(terminal);
        if link < self.since.len() {
            self.since[link] = since;
        }
    }

    /// The answer about several links.
    pub(crate) fn reset_links(&mut self, links: &[usize])
        ensures { Resets (stood self.old) links.now (stood self.new) }
    {
        for link in links {
            self.reset(*link);
        }
    }

    /// The line that a script prints for `state P` of a link.
    pub(crate) fn state_line(
        &self,
        alloc: Global,
        link: usize,
        process: &str,
    ) -> Result<Option<Vec<u8>>, AllocError>
        ensures { IfOk result (λ line. option_map (λ v. v.items) line ≡ state_at process.now self.now.tender link) }
    {
        match self.tender.set().book(link) {
            Some(book) => Ok(Some(state_line(alloc, book, process)?)),
            None => Ok(None),
        }
    }

    /// The line that a script prints for `value P x` of a link.
    pub(crate) fn value_line(
        &self,
        alloc: Global,
        link: usize,
        process: &str,
        variable: &str,
    ) -> Result<Option<Vec<u8>>, AllocError>
        ensures { IfOk result (λ line. option_map (λ v. v.items) line ≡ value_at process.now variable.now self.now.tender link) }
    {
        match self.tender.set().book(link) {
            Some(book) => Ok(Some(value_line(alloc, book, process, variable)?)),
            None => Ok(None),
        }
    }

    /// Reports the state of an actor of a link.
    fn say_state<P: Reports>(
        &self,
        alloc: Global,
        link: usize,
        process: &str,
        line: &[u8],
        reports: &mut P,
    ) -> io::Result<()>
        ensures { OnOk result (TellsLines (P.stand reports.old) (P.stand reports.new) (answered (stood self.now) (state_text process.now link line.now))) }
    {
        let text = text_of(alloc, line)?;
        self.say_text(
            alloc,
            format!(in alloc; "{link} state {process} {text}")?,
            reports,
        )
    }

    /// `state P` for a link.
    fn tell_state<P: Reports>(
        &self,
        alloc: Global,
        link: usize,
        process: &str,
        reports: &mut P,
    ) -> io::Result<()>
        ensures { OnOk result (TellsLines (P.stand reports.old) (P.stand reports.new) (shown_of (state process.now) (stood self.now) link)) }
    {
        match self.state_line(alloc, link, process)? {
            Some(line) => self.say_state(alloc, link, process, line.as_slice(), reports),
            None => Ok(()),
        }
    }

    /// Reports the value of a variable of an actor of a link.
    fn say_value<P: Reports>(
        &self,
        alloc: Global,
        link: usize,
        process: &str,
        variable: &str,
        line: &[u8],
        reports: &mut P,
    ) -> io::Result<()>
        ensures { OnOk result (TellsLines (P.stand reports.old) (P.stand reports.new) (answered (stood self.now) (value_text process.now variable.now link line.now))) }
    {
        let text = text_of(alloc, line)?;
        self.say_text(
            alloc,
            format!(in alloc; "{link} value {process} {variable} {text}")?,
            reports,
        )
    }

    /// `value P x` for a link.
    fn tell_value<P: Reports>(
        &self,
        alloc: Global,
        link: usize,
        process: &str,
        variable: &str,
        reports: &mut P,
    ) -> io::Result<()>
        ensures { OnOk result (TellsLines (P.stand reports.old) (P.stand reports.new) (shown_of (value process.now variable.now) (stood self.now) link)) }
    {
        match self.value_line(alloc, link, process, variable)? {
            Some(line) => self.say_value(alloc, link, process, variable, line.as_slice(), reports),
            None => Ok(()),
        }
    }

    /// `measure NAME` for a link.
    fn tell_measure<P: Reports>(
        &self,
        alloc: Global,
        link: usize,
        measure: Measure,
        reports: &mut P,
    ) -> io::Result<()>
        ensures { OnOk result (TellsLines (P.stand reports.old) (P.stand reports.new) (count_told (stood self.now) link measure)) }
    {
        let count = self.counted(link, measure);
        let name = measure.word();
        self.say_text(
            alloc,
            format!(in alloc; "{link} measure {name} {count}")?,
            reports,
        )
    }

    /// `measure aborted_periods` for a link.
    fn tell_aborted<P: Reports>(
        &self,
        alloc: Global,
        link: usize,
        reports: &mut P,
    ) -> io::Result<()>
        ensures { OnOk result (TellsLines (P.stand reports.old) (P.stand reports.new) (aborted_told (stood self.now) link)) }
    {
        let count = self.aborted(link);
        self.say_text(
            alloc,
            format!(in alloc; "{link} measure aborted_periods {count}")?,
            reports,
        )
    }

    /// Reports these counts of a link.
    fn tell_counts<P: Reports>(
        &self,
        alloc: Global,
        link: usize,
        all: &[Measure],
        reports: &mut P,
    ) -> io::Result<()>
        ensures { OnOk result (TellsLines (P.stand reports.old) (P.stand reports.new) (flat_map (count_told (stood self.now) link) all.now)) }
    {
        for measure in all {
            self.tell_measure(alloc, link, *measure, reports)?;
        }
        Ok(())
    }

    /// `measure` for a link: all counts, in the order of the names.
    fn tell_measures<P: Reports>(
        &self,
        alloc: Global,
        link: usize,
        reports: &mut P,
    ) -> io::Result<()>
        ensures { OnOk result (TellsLines (P.stand reports.old) (P.stand reports.new) (shown_of measures (stood self.now) link)) }
    {
        let all = all_measures();
        self.tell_counts(alloc, link, &all, reports)?;
        self.tell_aborted(alloc, link, reports)
    }

    /// `held` for a link.
    fn tell_held<P: Reports>(&self, alloc: Global, link: usize, reports: &mut P) -> io::Result<()>
        ensures { OnOk result (TellsLines (P.stand reports.old) (P.stand reports.new) (answered (stood self.now) (held_text self.now.tender link))) }
    {
        let held = self.tender.set().held(link).unwrap_or(0);
        let sent = self.tender.set().sent(link).unwrap_or(0);
        self.say_text(
            alloc,
            format!(in alloc; "{link} held {held} sent {sent}")?,
            reports,
        )
    }

    /// `held`.
    fn tell_all_held<P: Reports>(&self, alloc: Global, reports: &mut P) -> io::Result<()>
        ensures { OnOk result (TellsLines (P.stand reports.old) (P.stand reports.new) (shown_held (stood self.now) (link_count self.now.tender))) }
    {
        for link in 0..self.tender.len() {
            self.tell_held(alloc, link, reports)?;
        }
        Ok(())
    }

    /// `table`.
    fn tell_table<P: Reports>(&self, alloc: Global, reports: &mut P) -> io::Result<()>
        ensures { OnOk result (TellsLines (P.stand reports.old) (P.stand reports.new) (answered (stood self.now) (table_of self.now.tender))) }
    {
        let table = self.tender.shared_out();
        self.say_text(alloc, format!(in alloc; "{table}")?, reports)
    }

    /// Reports the answer of a link to an order, if it is a question.
    fn tell_one_asked<P: Reports>(
        &self,
        alloc: Global,
        link: usize,
        order: &SetOrder,
        reports: &mut P,
    ) -> io::Result<()>
        ensures { OnOk result (TellsLines (P.stand reports.old) (P.stand reports.new) (shown_of (plain_set_order order.now) (stood self.now) link)) }
    {
        match order {
            SetOrder::State(process) => self.tell_state(alloc, link, process.as_str(), reports),
            SetOrder::Value(process, variable) => {
                self.tell_value(alloc, link, process.as_str(), variable.as_str(), reports)
            }
            SetOrder::Measure(measure) => self.tell_measure(alloc, link, *measure, reports),
            SetOrder::Aborted => self.tell_aborted(alloc, link, reports),
            SetOrder::Measures => self.tell_measures(alloc, link, reports),
            _ => Ok(()),
        }
    }

    /// Reports what an order asked of links.
    fn tell_of_links<P: Reports>(
        &self,
        alloc: Global,
        links: &[usize],
        order: &SetOrder,
        reports: &mut P,
    ) -> io::Result<()>
        ensures { OnOk result (TellsLines (P.stand reports.old) (P.stand reports.new) (shown_each (plain_set_order order.now) (stood self.now) links.now)) }
    {
        for link in links {
            self.tell_one_asked(alloc, *link, order, reports)?;
        }
        Ok(())
    }

    /// `unsure`.
    fn tell_unsure<P: Reports>(&self, alloc: Global, reports: &mut P) -> io::Result<()>
        ensures { OnOk result (TellsLines (P.stand reports.old) (P.stand reports.new) (answered (stood self.now) (unsure_text self.now.tender))) }
    {
        let unsure = self.tender.set().unsure();
        self.say_text(alloc, format!(in alloc; "unsure {unsure}")?, reports)
    }

    /// Reports the answer to an order that was obeyed: that of each addressed link, or that of the link set.
    pub(crate) fn tell_asked<P: Reports>(
        &self,
        alloc: Global,
        links: &[usize],
        order: &SetOrder,
        reports: &mut P,
    ) -> io::Result<()>
        ensures { OnOk result (TellsLines (P.stand reports.old) (P.stand reports.new) (shows (plain_set_order order.now) links.now (stood self.now))) }
    {
        match order {
            SetOrder::Table => self.tell_table(alloc, reports),
            SetOrder::Unsure => self.tell_unsure(alloc, reports),
            SetOrder::Held => self.tell_all_held(alloc, reports),
            _ => self.tell_of_links(alloc, links, order, reports),
        }
    }
}
