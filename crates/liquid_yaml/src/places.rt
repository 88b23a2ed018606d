//! The value that lines make, one line after another.
ghost use Rattle.std.specs.Prelude.{◌≡◌, ◌∷◌, Some, None, option_map};
ghost use Rattle.liquid_model.specs.Answer.{IsValueOrMemory};
ghost use Rattle.liquid_model.specs.View.{view};
ghost use Rattle.liquid_yaml.specs.Bytes.{end_trimmed};
ghost use Rattle.liquid_yaml.specs.Lines as spec_lines;
ghost use Rattle.liquid_yaml.specs.Lines.{setting_view};
ghost use Rattle.liquid_yaml.specs.Places as spec;
ghost use Rattle.liquid_yaml.specs.Places.{around_view, fitting, list_view, map_view, reached_view};
ghost use Rattle.liquid_yaml.specs.Places.{whole};
ghost use Rattle.liquid_yaml.specs.Places.{so_far_view, gathering_view};

use crate::block::Step;
use crate::line::{Line, Member, said};
use crate::place::{Here, OpenList, OpenMap, Place, Start, first_item, first_member, read_at};
use crate::scan::{is_clean, trimmed, without_return};
use crate::value::{is_all_plain, is_plain_scalar};
use liquid_model::{Result, Value, store};
use std::alloc::Global;
use std::mem;

/// The places around what is read, from the outmost one inwards.
#[derive(Drop)]
pub(crate) struct Gathered<'t> {
    pub around: Vec<Place<'t>>,
    pub here: Here<'t>,
}

impl<'t> Gathered<'t> {
    /// Nothing.
    pub(crate) fn new(alloc: Global) -> Gathered<'t>
        ensures { gathering_view result ≡ spec.nothing_read }
    {
        Gathered {
            around: Vec::new(alloc),
            here: Here::Nothing,
        }
    }

    /// Ends the maps and lists that a line ends that starts there, or all.
    #[tactic(auto, using(crate::proofs::Around::places_pop, crate::proofs::Around::places_push))]
    fn close(&mut self, alloc: Global, start: Option<Start>) -> Result<()>
        ensures { IsValueOrMemory (λ _. gathering_view self.new) result
            (spec.closed_places start (gathering_view self.old).around
            (gathering_view self.old).here) }
    {
        while let Some(place) = self.around.pop() {
            if !place.is_left(start) {
                return Ok(self.around.push(place)?);
            }
            let here = mem::replace(&mut self.here, Here::Nothing);
            self.here = Here::Whole(place.holding(alloc, here.value(alloc)?)?);
        }
        Ok(())
    }

    fn close_before(&mut self, alloc: Global, column: usize, is_item: bool) -> Result<()>
        ensures { IsValueOrMemory (λ _. gathering_view self.new) result
            (spec.closed_before column is_item (gathering_view self.old)) }
    {
        self.close(alloc, Some(Start { column, is_item }))
    }

    /// A map or a list begins, where no value stands yet.
    #[tactic(auto, using(crate::proofs::Around::places_push))]
    fn open(&mut self, place: Place<'t>, value: Here<'t>) -> Result<bool>
        ensures { IsValueOrMemory (λ fits. fitting fits (gathering_view self.new)) result
            (spec.opened_place (around_view place.entry) (so_far_view value.entry)
            (gathering_view self.old).around (gathering_view self.old).here) }
    {
        if !self.here.is_unread() {
            return Ok(false);
        }
        self.around.push(place)?;
        self.here = value;
        Ok(true)
    }

    /// One more member of the map that begins as far to the right, or the first one of a map.
    #[tactic(auto, using(crate::proofs::Around::places_pop, crate::proofs::Around::places_push))]
    fn set(&mut self, alloc: Global, member: Member<'t>, value: Here<'t>) -> Result<bool>
        ensures { IsValueOrMemory (λ fits. fitting fits (gathering_view self.new)) result
            (spec.with_member (setting_view member.entry) (so_far_view value.entry)
            (gathering_view self.old)) }
    {
        match self.around.pop() {
            Some(Place::Member(map)) if map.column == member.column => {
                self.set_next(alloc, map, member.key, value)
            }
            Some(place) => {
                self.around.push(place)?;
                self.open(first_member(alloc, member), value)
            }
            None => self.open(first_member(alloc, member), value),
        }
    }

    /// The value that is read is that of the map's key, and another key follows.
    #[tactic(auto, using(crate::proofs::Around::places_push))]
    fn set_next(
        &mut self,
        alloc: Global,
        map: OpenMap<'t>,
        key: &'t str,
        value: Here<'t>,
    ) -> Result<bool>
        ensures { IsValueOrMemory (λ fits. fitting fits (gathering_view self.new)) result
            (Some (spec.next_member (map_view map.entry) key.now (so_far_view value.entry)
            (gathering_view self.old))) }
    {
        let mut map = map;
        let here = mem::replace(&mut self.here, value);
        let last = String::from_str(alloc, map.key)?;
        store(&mut map.members, last, here.value(alloc)?)?;
        map.key = key;
        self.around.push(Place::Member(map))?;
        Ok(true)
    }

    /// One more item of the list that begins as far to the right, or the first one of a list.
    #[tactic(auto, using(crate::proofs::Around::places_pop, crate::proofs::Around::places_push))]
    fn add(&mut self, alloc: Global, column: usize, value: Here<'t>) -> Result<bool>
        ensures { IsValueOrMemory (λ fits. fitting fits (gathering_view self.new)) result
            (spec.with_element column (so_far_view value.entry) (gathering_view self.old)) }
    {
        match self.around.pop() {
            Some(Place::Item(list)) => self.add_beside(alloc, list, column, value),
            Some(Place::Member(map)) => {
                self.around.push(Place::Member(map))?;
                self.open(first_item(alloc, column), value)
            }
            None => self.open(first_item(alloc, column), value),
        }
    }

    /// One more item after those of the inmost list, or the first one of a list in it.
    #[tactic(auto, using(crate::proofs::Around::places_push))]
    fn add_beside(
        &mut self,
        alloc: Global,
        list: OpenList,
        column: usize,
        value: Here<'t>,
    ) -> Result<bool>
        ensures { IsValueOrMemory (λ fits. fitting fits (gathering_view self.new)) result
            (spec.add_to column (so_far_view value.entry)
            (list_view list ∷ (gathering_view self.old).around) (gathering_view self.old).here) }
    {
        if list.column == column {
            return self.add_next(alloc, list, value);
        }
        self.around.push(Place::Item(list))?;
        self.open(first_item(alloc, column), value)
    }

    /// The value that is read is the list's last item, and another item follows.
    #[tactic(auto, using(crate::proofs::Around::places_push, crate::proofs::Items::items_push))]
    fn add_next(&mut self, alloc: Global, list: OpenList, value: Here<'t>) -> Result<bool>
        ensures { IsValueOrMemory (λ fits. fitting fits (gathering_view self.new)) result
            (Some (spec.next_element (list_view list) (so_far_view value.entry)
            (gathering_view self.old))) }
    {
        let mut list = list;
        let here = mem::replace(&mut self.here, value);
        list.items.push(here.value(alloc)?)?;
        self.around.push(Place::Item(list))?;
        Ok(true)
    }

    fn take_member(&mut self, alloc: Global, member: Member<'t>) -> Result<bool>
        ensures { IsValueOrMemory (λ fits. fitting fits (gathering_view self.new)) result
            (spec.taken_member (setting_view member.entry) (gathering_view self.old)) }
    {
        let Some(value) = read_at(alloc, member.column, member.value)? else {
            return Ok(false);
        };
        self.close_before(alloc, member.column, false)?;
        self.set(alloc, member, value)
    }

    fn take_item(&mut self, alloc: Global, column: usize, text: &'t str) -> Result<bool>
        ensures { IsValueOrMemory (λ fits. fitting fits (gathering_view self.new)) result
            (spec.taken_item column text.now (gathering_view self.old)) }
    {
        let Some(value) = read_at(alloc, column, text)? else {
            return Ok(false);
        };
        self.close_before(alloc, column, true)?;
        self.add(alloc, column, value)
    }

    /// A blank line: a line feed within words.
    fn take_blank(&mut self) -> Result<bool>
        ensures { IsValueOrMemory (λ fits. fitting fits (gathering_view self.new)) result
            (Some (spec.with_here (gathering_view self.old)
            (spec.after_blank (gathering_view self.old).here))) }
    {
        if let Here::Words(words) = &mut self.here {
            words.add_blank()?;
        }
        Ok(true)
    }

    /// A comment ends words.
    fn take_note(&mut self, alloc: Global) -> Result<bool>
        ensures { IsValueOrMemory (λ fits. fitting fits (gathering_view self.new)) result
            (Some (spec.with_here (gathering_view self.old)
            (spec.after_note (gathering_view self.old).here))) }
    {
        if self.here.is_words() {
            self.end_words(alloc)?;
        }
        Ok(true)
    }

    fn end_words(&mut self, alloc: Global) -> Result<()>
        ensures { IsValueOrMemory (λ _. gathering_view self.new) result
            (spec.with_here (gathering_view self.old)
            (whole (spec.value_so_far (gathering_view self.old).here))) }
    {
        let here = mem::replace(&mut self.here, Here::Nothing);
        self.here = Here::Whole(here.value(alloc)?);
        Ok(())
    }

    /// A line that is no member and no item: words go on, or a value begins where none stands yet.
    fn take_part(&mut self, alloc: Global, column: usize, line: &'t str) -> Result<bool>
        ensures { IsValueOrMemory (λ fits. fitting fits (gathering_view self.new)) result
            (spec.taken_part column line.now (gathering_view self.old)) }
    {
        match &mut self.here {
            Here::Words(words) => {
                if words.below >= column || !is_plain_scalar(line) {
                    return Ok(false);
                }
                words.add(line)?;
            }
            Here::Nothing => return self.take_value(alloc, column, line),
            _ => return Ok(false),
        }
        if !is_all_plain(line) {
            self.end_words(alloc)?;
        }
        Ok(true)
    }

    /// A value below its key or its `-`, and deeper.
    fn take_value(&mut self, alloc: Global, column: usize, line: &'t str) -> Result<bool>
        ensures { IsValueOrMemory (λ fits. fitting fits (gathering_view self.new)) result
            (option_map (spec.with_here (gathering_view self.old))
            (spec.value_below (spec.inmost_column (gathering_view self.old).around) column
            line.now)) }
    {
        let Some(below) = self.inmost_column() else {
            return Ok(false);
        };
        if below >= column {
            return Ok(false);
        }
        match read_at(alloc, below, line)? {
            Some(value) => {
                self.here = value;
                Ok(true)
            }
            None => Ok(false),
        }
    }

    /// After how many spaces the key or the `-` stands whose value is read.
    fn inmost_column(&self) -> Option<usize>
        ensures { result ≡ spec.inmost_column (gathering_view self.now).around }
    {
        match self.around.last() {
            Some(place) => Some(place.column()),
            None => None,
        }
    }

    /// A line that says something.
    fn take(&mut self, alloc: Global, line: &'t str) -> Result<bool>
        ensures { IsValueOrMemory (λ fits. fitting fits (gathering_view self.new)) result
            (spec.taken (gathering_view self.old) (spec_lines.said (end_trimmed line.now))) }
    {
        match said(trimmed(line)) {
            None => Ok(false),
            Some(Line::Blank) => self.take_blank(),
            Some(Line::Note) => self.take_note(alloc),
            Some(Line::Spells(part)) => self.take_part(alloc, part.column, part.value),
            Some(Line::Sets(member)) => self.take_member(alloc, member),
            Some(Line::Adds(item)) => self.take_item(alloc, item.column, item.value),
            Some(Line::AddsMap(item)) => {
                self.close_before(alloc, item.column, true)?;
                if !self.add(alloc, item.column, Here::Nothing)? {
                    return Ok(false);
                }
                self.take_member(alloc, item.first)
            }
        }
    }

    /// What a line is to a text whose lines stand here, where one does.
    fn step(&mut self, alloc: Global, line: &'t str) -> Result<Step>
        ensures { IsValueOrMemory (λ s. reached_view s (gathering_view self.new)) result
            (spec.step_here (gathering_view self.old) line.now) }
    {
        match &mut self.here {
            Here::Block(block) => match block.step(line)? {
                Step::EndsBefore => {}
                Step::Refused => return Ok(Step::Refused),
                Step::GoesOn => return Ok(Step::GoesOn),
            },
            _ => return Ok(Step::EndsBefore),
        }
        let here = mem::replace(&mut self.here, Here::Nothing);
        self.here = Here::Whole(here.value(alloc)?);
        Ok(Step::EndsBefore)
    }

    /// What is gathered after one more line: false where that doesn't fit. The answer is `Memory`
    /// where a growth was refused, and no other kind.
    pub(crate) fn take_line(&mut self, alloc: Global, line: &'t str) -> Result<bool>
        ensures { IsValueOrMemory (λ fits. fitting fits (gathering_view self.new)) result
            (spec.taken_line (gathering_view self.old) line.now) }
    {
        let line = without_return(line);
        if !is_clean(line) {
            return Ok(false);
        }
        match self.step(alloc, line)? {
            Step::GoesOn => Ok(true),
            Step::Refused => Ok(false),
            Step::EndsBefore => self.take(alloc, line),
        }
    }

    /// No line is left, and the last one had no line feed.
    pub(crate) fn cut_off(&mut self)
        ensures { gathering_view self.new ≡ spec.cut_at_end (gathering_view self.old) }
    {
        if let Here::Block(block) = &mut self.here {
            block.cut_off();
        }
    }

    /// The value of all lines, which are taken. The answer is `Memory` where a growth was refused,
    /// and no other kind.
    pub(crate) fn document(&mut self, alloc: Global) -> Result<Value>
        ensures { IsValueOrMemory view result (spec.document (gathering_view self.old)) }
    {
        self.close(alloc, None)?;
        mem::replace(&mut self.here, Here::Nothing).value(alloc)
    }
}
