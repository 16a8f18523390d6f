//! Values, and what labelled values and results hold.
ghost use Rattle.std.specs.Prelude.{◌≡◌, IfOk};

use crate::fault::Fault;
use crate::held::Held;
use crate::items::Items;
use crate::list::List;
use crate::text::Text;
use lio_clauses::NoMemory;
use lio_labels::{Label, Priv};
use std::alloc::Global;

/// A node by its number, with its label.
#[derive(PartialEq, Eq, Drop)]
pub struct Handle {
    pub number: u32,
    pub label: Label,
}

/// A value without a label of its own.
#[cycle(value)]
#[derive(PartialEq, Eq, Drop)]
pub enum Plain {
    /// The value that says nothing.
    Unit,
    /// A truth value.
    Flag(bool),
    /// A number of 64 bits with a sign.
    Whole(i64),
    /// A text.
    Bytes(Text),
    /// A label.
    Lab(Label),
    /// A privilege. It comes from the policy alone.
    Power(Priv),
    /// A reference.
    RefOf(Handle),
    /// A blocking variable.
    VarOf(Handle),
    /// The result of a task.
    ResultOf(Handle),
    /// A channel.
    ChanOf(Handle),
    /// A list of values.
    Items(Items),
}

/// What a labelled value or a result holds.
#[cycle(value)]
#[derive(PartialEq, Eq, Drop)]
pub enum Content {
    /// A plain value.
    Kept(Plain),
    /// The fault with which what would have given a value ended.
    Faulted(Held<Fault>),
    /// What stands for a content that an observer may not learn.
    Hidden,
}

/// A value: bare, or sealed under a label. Source: the labelled values of LIO, ICFP 2012.
#[cycle(value)]
#[derive(PartialEq, Eq, Drop)]
pub enum Value {
    /// A plain value.
    Bare(Plain),
    /// A content under a label.
    Sealed(Label, Held<Content>),
}

/// A list of values.
pub type Values = List<Value>;

impl Handle {
    /// An equal handle.
    pub fn copy(&self, alloc: Global) -> Result<Handle, NoMemory>
        ensures { IfOk result (λ handle. handle ≡ self.now) }
    {
        Ok(Handle {
            number: self.number,
            label: self.label.copy(alloc)?,
        })
    }
}

impl Plain {
    /// An equal value.
    #[cycle(copy)]
    pub fn copy(&self, alloc: Global) -> Result<Plain, NoMemory>
        ensures { IfOk result (λ plain. plain ≡ self.now) }
    {
        match self {
            Plain::Unit => Ok(Plain::Unit),
            Plain::Flag(flag) => Ok(Plain::Flag(*flag)),
            Plain::Whole(number) => Ok(Plain::Whole(*number)),
            Plain::Bytes(text) => Ok(Plain::Bytes(text.copy(alloc)?)),
            Plain::Lab(label) => Ok(Plain::Lab(label.copy(alloc)?)),
            Plain::Power(privilege) => Ok(Plain::Power(privilege.copy(alloc)?)),
            Plain::RefOf(handle) => Ok(Plain::RefOf(handle.copy(alloc)?)),
            Plain::VarOf(handle) => Ok(Plain::VarOf(handle.copy(alloc)?)),
            Plain::ResultOf(handle) => Ok(Plain::ResultOf(handle.copy(alloc)?)),
            Plain::ChanOf(handle) => Ok(Plain::ChanOf(handle.copy(alloc)?)),
            Plain::Items(items) => Ok(Plain::Items(items.copy(alloc)?)),
        }
    }
}

impl Content {
    /// An equal content.
    #[cycle(copy)]
    pub fn copy(&self, alloc: Global) -> Result<Content, NoMemory>
        ensures { IfOk result (λ content. content ≡ self.now) }
    {
        match self {
            Content::Kept(plain) => Ok(Content::Kept(plain.copy(alloc)?)),
            Content::Faulted(fault) => Ok(Content::Faulted(fault.copy(alloc)?)),
            Content::Hidden => Ok(Content::Hidden),
        }
    }
}

impl Held<Content> {
    /// An equal content.
    #[cycle(copy)]
    pub fn copy(&self, alloc: Global) -> Result<Held<Content>, NoMemory>
        ensures { IfOk result (λ held. held ≡ self.now) }
    {
        Held::new(alloc, self.get().copy(alloc)?)
    }
}

impl Value {
    /// An equal value.
    #[cycle(copy)]
    pub fn copy(&self, alloc: Global) -> Result<Value, NoMemory>
        ensures { IfOk result (λ value. value ≡ self.now) }
    {
        match self {
            Value::Bare(plain) => Ok(Value::Bare(plain.copy(alloc)?)),
            Value::Sealed(label, content) => {
                Ok(Value::Sealed(label.copy(alloc)?, content.copy(alloc)?))
            }
        }
    }
}

impl Held<Value> {
    /// An equal value.
    pub fn copy(&self, alloc: Global) -> Result<Held<Value>, NoMemory>
        ensures { IfOk result (λ held. held ≡ self.now) }
    {
        Held::new(alloc, self.get().copy(alloc)?)
    }
}

impl Held<Option<Value>> {
    /// An equal value, or none.
    pub fn copy(&self, alloc: Global) -> Result<Held<Option<Value>>, NoMemory>
        ensures { IfOk result (λ held. held ≡ self.now) }
    {
        match self.get() {
            Some(value) => Held::new(alloc, Some(value.copy(alloc)?)),
            None => Held::new(alloc, None),
        }
    }
}

impl List<Value> {
    /// Equal values.
    pub fn copy(&self, alloc: Global) -> Result<Values, NoMemory>
        ensures { IfOk result (λ values. values ≡ self.now) }
    {
        let mut values = List::new(alloc);
        for value in self.as_slice() {
            values.push(value.copy(alloc)?)?;
        }
        Ok(values)
    }
}
