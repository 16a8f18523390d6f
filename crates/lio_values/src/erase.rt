//! What an observer sees of values and entries.
#![tactic(auto, unfolding(crate::specs::Erasure::erase_content))]

ghost use Rattle.std.specs.Prelude.{◌≡◌, IfOk, map};
ghost use Rattle.std.specs.Option.{option_map};
ghost use Rattle.lio_values.specs.Erasure.{erase_content, erase_plain, erase_value, erase_birth};
ghost use Rattle.lio_values.specs.Erasure.{erase_act, erase_reply, erase_entry};

use crate::act::{Act, Birth, Reply, exposed, released};
use crate::entry::Entry;
use crate::held::Held;
use crate::list::List;
use crate::value::{Content, Plain, Value, Values};
use lio_clauses::NoMemory;
use lio_labels::Label;
use std::alloc::Global;

impl Held<Content> {
    /// The content under a label, hidden where the label doesn't flow to the observer's.
    fn erase(
        &self,
        alloc: Global,
        observer: &Label,
        label: &Label,
    ) -> Result<Held<Content>, NoMemory>
        ensures { IfOk result (λ content. content ≡ erase_content observer.now label.now self.now) }
    {
        if label.flows(observer) {
            self.copy(alloc)
        } else {
            Held::new(alloc, Content::Hidden)
        }
    }
}

impl Plain {
    /// The plain value as an observer sees it: each item of a list is erased.
    #[cycle(erase)]
    fn erase(&self, alloc: Global, observer: &Label) -> Result<Plain, NoMemory>
        ensures { IfOk result (λ plain. plain ≡ erase_plain observer.now self.now) }
    {
        match self {
            Plain::Items(items) => Ok(Plain::Items(items.erase(alloc, observer)?)),
            Plain::Unit
            | Plain::Flag(_)
            | Plain::Whole(_)
            | Plain::Bytes(_)
            | Plain::Lab(_)
            | Plain::Power(_)
            | Plain::RefOf(_)
            | Plain::VarOf(_)
            | Plain::ResultOf(_)
            | Plain::ChanOf(_) => self.copy(alloc),
        }
    }
}

impl Value {
    /// The value as an observer at the label `observer` sees it: the content of a sealed one is
    /// hidden where its label doesn't flow to the observer's, at every depth of a list too. Source:
    /// the erasure of the concurrent calculus of LIO, ICFP 2012.
    #[cycle(erase)]
    pub fn erase(&self, alloc: Global, observer: &Label) -> Result<Value, NoMemory>
        ensures { IfOk result (λ value. value ≡ erase_value observer.now self.now) }
    {
        match self {
            Value::Bare(plain) => Ok(Value::Bare(plain.erase(alloc, observer)?)),
            Value::Sealed(label, content) => Ok(Value::Sealed(
                label.copy(alloc)?,
                content.erase(alloc, observer, label)?,
            )),
        }
    }
}

impl Held<Value> {
    /// The value as an observer sees it.
    fn erase(&self, alloc: Global, observer: &Label) -> Result<Held<Value>, NoMemory>
        ensures { IfOk result (λ value. value ≡ erase_value observer.now self.now) }
    {
        Held::new(alloc, self.get().erase(alloc, observer)?)
    }
}

impl Held<Option<Value>> {
    /// The value, if there is one, as an observer sees it.
    fn erase(&self, alloc: Global, observer: &Label) -> Result<Held<Option<Value>>, NoMemory>
        ensures { IfOk result (λ value. value ≡ option_map (erase_value observer.now) self.now) }
    {
        match self.get() {
            Some(value) => Held::new(alloc, Some(value.erase(alloc, observer)?)),
            None => Held::new(alloc, None),
        }
    }
}

impl List<Value> {
    /// The values as an observer sees them.
    fn erase(&self, alloc: Global, observer: &Label) -> Result<Values, NoMemory>
        ensures { IfOk result (λ values. values ≡ map (erase_value observer.now) self.now) }
    {
        let mut values = List::new(alloc);
        for value in self.as_slice() {
            values.push(value.erase(alloc, observer)?)?;
        }
        Ok(values)
    }
}

impl Held<Birth> {
    /// The birth as an observer sees it.
    fn erase(&self, alloc: Global, observer: &Label) -> Result<Held<Birth>, NoMemory>
        ensures { IfOk result (λ birth. birth ≡ erase_birth observer.now self.now) }
    {
        let birth = self.get();
        let args = birth.args.erase(alloc, observer)?;
        let result = birth.result.copy(alloc)?;
        let clearance = birth.clearance.copy(alloc)?;
        Held::new(
            alloc,
            Birth {
                proc_at: birth.proc_at,
                args,
                result,
                clearance,
                turns: birth.turns,
                first: birth.first,
                cells: birth.cells,
            },
        )
    }
}

impl Act {
    /// The act as an observer sees it.
    fn erase(&self, alloc: Global, observer: &Label) -> Result<Act, NoMemory>
        ensures { IfOk result (λ act. act ≡ erase_act observer.now self.now) }
    {
        match self {
            Act::Release(source, target, power, content) => {
                let content = content.erase(alloc, observer, target.get())?;
                released(alloc, source, target, power, content)
            }
            Act::Expose(source, target, power, content) => {
                let seen = content.erase(alloc, observer, target.get())?;
                exposed(alloc, source, target, power, seen)
            }
            Act::NewRef(label, value) => Ok(Act::NewRef(
                label.copy(alloc)?,
                value.erase(alloc, observer)?,
            )),
            Act::NewVar(label, value) => Ok(Act::NewVar(
                label.copy(alloc)?,
                value.erase(alloc, observer)?,
            )),
            Act::Fork(birth) => Ok(Act::Fork(birth.erase(alloc, observer)?)),
            Act::Spawn(birth) => Ok(Act::Spawn(birth.erase(alloc, observer)?)),
            Act::Write(value) => Ok(Act::Write(value.erase(alloc, observer)?)),
            Act::Put(value) => Ok(Act::Put(value.erase(alloc, observer)?)),
            Act::Step
            | Act::Seal(_)
            | Act::Raise(_, _)
            | Act::Lower(_)
            | Act::Read
            | Act::Take
            | Act::Wait
            | Act::Send(_)
            | Act::Ended(_) => self.copy(alloc),
        }
    }
}

impl Reply {
    /// The reply as an observer sees it.
    fn erase(&self, alloc: Global, observer: &Label) -> Result<Reply, NoMemory>
        ensures { IfOk result (λ reply. reply ≡ erase_reply observer.now self.now) }
    {
        match self {
            Reply::Got(value) => Ok(Reply::Got(value.erase(alloc, observer)?)),
            Reply::Done | Reply::Told(_) | Reply::Refused(_) => self.copy(alloc),
        }
    }
}

impl Entry {
    /// The entry as an observer at the label `observer` sees it: all its values are erased, and the
    /// content of a release or an exposure is hidden where the label that it comes to doesn't flow
    /// to the observer's. Source: the erasure of the concurrent calculus of LIO, ICFP 2012.
    pub fn erase(&self, alloc: Global, observer: &Label) -> Result<Entry, NoMemory>
        ensures { IfOk result (λ entry. entry ≡ erase_entry observer.now self.now) }
    {
        let at = self.at.copy(alloc)?;
        let reply = self.reply.erase(alloc, observer)?;
        let act = self.act.erase(alloc, observer)?;
        Ok(Entry {
            ticket: self.ticket,
            actor: self.actor,
            target: self.target,
            at,
            act,
            reply,
        })
    }
}
