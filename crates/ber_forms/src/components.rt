//! Components that are truth values, NULL, bit strings and octets, each under a context tag.

ghost use Rattle.std.specs.Prelude.{◌≡◌, ◌≤◌, ℕ, Ok, Err, Some, None, IfOk};
ghost use Rattle.ber_forms.specs.Bits.{cleared};
ghost use Rattle.ber_forms.specs.Steps.{DefaultedGives, OptionalGives, RequiredGives};
ghost use Rattle.ber_forms.specs.Reads.{NeedsNoMemory};
ghost use Rattle.ber_forms.specs.Form as form;
ghost use Rattle.ber_forms.specs.Value as value;

use crate::contents::{bit_string, boolean, null, visible};
use crate::cursor::Cursor;
use crate::unread::Unread;
use ber_core::{Bits, Tag};

impl<'a> Cursor<'a> {
    /// A truth value under the context tag `number`.
    #[tactic(auto, unfolding(crate::specs::Reading::required_by))]
    pub fn required_boolean(&mut self, number: u32) -> Result<bool, Unread>
        ensures exact { RequiredGives value.truth
            (form.context number form.boolean) self.old self.new result }
        ensures kept { self.new.lengths ≡ self.old.lengths }
        ensures no_memory { NeedsNoMemory result }
    {
        let element = self.required(Tag::primitive(number))?;
        boolean(element.contents)
    }

    /// A truth value under the context tag `number`, if it is there.
    #[tactic(auto, unfolding(crate::specs::Reading::optional_by))]
    pub fn optional_boolean(&mut self, number: u32) -> Result<Option<bool>, Unread>
        ensures exact { OptionalGives value.truth
            (form.context number form.boolean) self.old self.new result }
        ensures kept { self.new.lengths ≡ self.old.lengths }
        ensures no_memory { NeedsNoMemory result }
    {
        match self.optional(Tag::primitive(number))? {
            None => Ok(None),
            Some(element) => Ok(Some(boolean(element.contents)?)),
        }
    }

    /// A truth value under the context tag `number`, and `default` where it is missing.
    #[tactic(auto, unfolding(crate::specs::Reading::defaulting))]
    pub fn defaulted_boolean(&mut self, number: u32, default: bool) -> Result<bool, Unread>
        ensures exact { DefaultedGives value.truth (form.context number form.boolean)
            (value.truth default) self.old self.new result }
        ensures kept { self.new.lengths ≡ self.old.lengths }
        ensures no_memory { NeedsNoMemory result }
    {
        match self.optional_boolean(number)? {
            None => Ok(default),
            Some(b) => Ok(b),
        }
    }

    /// NULL under the context tag `number`.
    #[tactic(auto, unfolding(crate::specs::Reading::required_by))]
    pub fn required_null(&mut self, number: u32) -> Result<(), Unread>
        ensures exact { RequiredGives (λ _. value.nothing)
            (form.context number form.null) self.old self.new result }
        ensures kept { self.new.lengths ≡ self.old.lengths }
        ensures no_memory { NeedsNoMemory result }
    {
        let element = self.required(Tag::primitive(number))?;
        null(element.contents)
    }

    /// A bit string under the context tag `number`, as it was sent: its value has the unused bits 0.
    #[tactic(auto, unfolding(crate::specs::Reading::required_by))]
    pub fn required_bit_string(&mut self, number: u32) -> Result<Bits<'a>, Unread>
        ensures few { IfOk result (λ b. b.unused ≤ 7) }
        ensures exact { RequiredGives (λ b. value.bits b.unused (cleared b.unused b.octets.now))
            (form.context number form.bit_string) self.old self.new result }
        ensures kept { self.new.lengths ≡ self.old.lengths }
        ensures no_memory { NeedsNoMemory result }
    {
        let element = self.required(Tag::primitive(number))?;
        bit_string(element.contents)
    }

    /// Octets under the context tag `number`, as they stand in the contents.
    #[tactic(auto, unfolding(crate::specs::Reading::required_by))]
    pub fn required_octets(&mut self, number: u32) -> Result<&'a [u8], Unread>
        ensures exact { RequiredGives (λ s. value.text s.now)
            (form.context number (form.octet_string form.any_octets)) self.old self.new result }
        ensures kept { self.new.lengths ≡ self.old.lengths }
        ensures no_memory { NeedsNoMemory result }
    {
        let element = self.required(Tag::primitive(number))?;
        Ok(element.contents)
    }

    /// Octets under the context tag `number`, if they are there.
    #[tactic(auto, unfolding(crate::specs::Reading::optional_by))]
    pub fn optional_octets(&mut self, number: u32) -> Result<Option<&'a [u8]>, Unread>
        ensures exact { OptionalGives (λ s. value.text s.now)
            (form.context number (form.octet_string form.any_octets)) self.old self.new result }
        ensures kept { self.new.lengths ≡ self.old.lengths }
        ensures no_memory { NeedsNoMemory result }
    {
        match self.optional(Tag::primitive(number))? {
            None => Ok(None),
            Some(element) => Ok(Some(element.contents)),
        }
    }

    /// A VisibleString under the context tag `number`. Malformed for an octet below 20 or above 7E.
    #[tactic(auto, unfolding(crate::specs::Reading::required_by))]
    pub fn required_visible(&mut self, number: u32) -> Result<&'a [u8], Unread>
        ensures exact { RequiredGives (λ s. value.text s.now)
            (form.context number form.visible_string) self.old self.new result }
        ensures kept { self.new.lengths ≡ self.old.lengths }
        ensures no_memory { NeedsNoMemory result }
    {
        let element = self.required(Tag::primitive(number))?;
        visible(element.contents)
    }

    /// A VisibleString under the context tag `number`, if it is there.
    #[tactic(auto, unfolding(crate::specs::Reading::optional_by))]
    pub fn optional_visible(&mut self, number: u32) -> Result<Option<&'a [u8]>, Unread>
        ensures exact { OptionalGives (λ s. value.text s.now)
            (form.context number form.visible_string) self.old self.new result }
        ensures kept { self.new.lengths ≡ self.old.lengths }
        ensures no_memory { NeedsNoMemory result }
    {
        match self.optional(Tag::primitive(number))? {
            None => Ok(None),
            Some(element) => Ok(Some(visible(element.contents)?)),
        }
    }
}
