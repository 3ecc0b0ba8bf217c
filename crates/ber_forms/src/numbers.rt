//! Components that are numbers, each under a context tag.

ghost use Rattle.std.specs.Prelude.{◌≡◌, ℕ, Ok, Err, Some, None, IfOk, IfSome, ◌≤ℤ◌, pos};
ghost use Rattle.ber_forms.specs.Steps.{DefaultedGives, OptionalGives, RequiredGives};
ghost use Rattle.ber_forms.specs.Reads.{NeedsNoMemory};
ghost use Rattle.ber_forms.specs.Form as form;
ghost use Rattle.ber_forms.specs.Value as value;

use crate::contents::{integer, unsigned8_in, unsigned16_in, unsigned32};
use crate::cursor::Cursor;
use crate::unread::Unread;
use ber_core::Tag;

impl<'a> Cursor<'a> {
    /// A number from `low` to `high` under the context tag `number`. Malformed where the next element has another
    /// tag, there is none, or it says no such number.
    #[tactic(auto, unfolding(crate::specs::Reading::required_by))]
    pub fn required_integer(&mut self, number: u32, low: i64, high: i64) -> Result<i64, Unread>
        ensures exact { RequiredGives value.number
            (form.context number (form.integer low high)) self.old self.new result }
        ensures kept { self.new.lengths ≡ self.old.lengths }
        ensures no_memory { NeedsNoMemory result }
        ensures low { IfOk result (λ n. low ≤ℤ n) }
        ensures high { IfOk result (λ n. n ≤ℤ high) }
    {
        let element = self.required(Tag::primitive(number))?;
        integer(element.contents, low, high)
    }

    /// An integer as `required_integer` has it, where the next element has that tag, and None where it has another or
    /// there is none.
    #[tactic(auto, unfolding(crate::specs::Reading::optional_by))]
    pub fn optional_integer(
        &mut self,
        number: u32,
        low: i64,
        high: i64,
    ) -> Result<Option<i64>, Unread>
        ensures exact { OptionalGives value.number
            (form.context number (form.integer low high)) self.old self.new result }
        ensures kept { self.new.lengths ≡ self.old.lengths }
        ensures no_memory { NeedsNoMemory result }
        ensures low { IfOk result (λ o. IfSome o (λ n. low ≤ℤ n)) }
        ensures high { IfOk result (λ o. IfSome o (λ n. n ≤ℤ high)) }
    {
        match self.optional(Tag::primitive(number))? {
            None => Ok(None),
            Some(element) => Ok(Some(integer(element.contents, low, high)?)),
        }
    }

    /// An integer as `optional_integer` has it, and `default` where it is missing.
    #[tactic(auto, unfolding(crate::specs::Reading::defaulting))]
    pub fn defaulted_integer(
        &mut self,
        number: u32,
        low: i64,
        high: i64,
        default: i64,
    ) -> Result<i64, Unread>
        requires low { low ≤ℤ default }
        requires high { default ≤ℤ high }
        ensures exact { DefaultedGives value.number (form.context number (form.integer low high))
            (value.number default) self.old self.new result }
        ensures kept { self.new.lengths ≡ self.old.lengths }
        ensures no_memory { NeedsNoMemory result }
        ensures low { IfOk result (λ n. low ≤ℤ n) }
        ensures high { IfOk result (λ n. n ≤ℤ high) }
    {
        match self.optional_integer(number, low, high)? {
            None => Ok(default),
            Some(n) => Ok(n),
        }
    }

    /// A number of 8 bits with a sign under the context tag `number`.
    pub fn required_i8(&mut self, number: u32) -> Result<i8, Unread>
        ensures exact { RequiredGives value.number
            (form.context number form.int8) self.old self.new result }
        ensures kept { self.new.lengths ≡ self.old.lengths }
        ensures no_memory { NeedsNoMemory result }
    {
        Ok(self.required_integer(number, -128, 127)? as i8)
    }

    /// A number of 16 bits with a sign under the context tag `number`.
    pub fn required_i16(&mut self, number: u32) -> Result<i16, Unread>
        ensures exact { RequiredGives value.number
            (form.context number form.int16) self.old self.new result }
        ensures kept { self.new.lengths ≡ self.old.lengths }
        ensures no_memory { NeedsNoMemory result }
    {
        Ok(self.required_integer(number, -32768, 32767)? as i16)
    }

    /// A number of 32 bits with a sign under the context tag `number`.
    pub fn required_i32(&mut self, number: u32) -> Result<i32, Unread>
        ensures exact { RequiredGives value.number
            (form.context number form.int32) self.old self.new result }
        ensures kept { self.new.lengths ≡ self.old.lengths }
        ensures no_memory { NeedsNoMemory result }
    {
        Ok(self.required_integer(number, -2147483648, 2147483647)? as i32)
    }

    /// A number of 8 bits without a sign under the context tag `number`.
    pub fn required_u8(&mut self, number: u32) -> Result<u8, Unread>
        ensures exact { RequiredGives (λ n. value.number (pos n))
            (form.context number form.unsigned8) self.old self.new result }
        ensures kept { self.new.lengths ≡ self.old.lengths }
        ensures no_memory { NeedsNoMemory result }
    {
        Ok(self.required_integer(number, 0, 255)? as u8)
    }

    /// A number of 8 bits without a sign, from `low` to `high`, under the context tag `number`.
    #[tactic(auto, unfolding(crate::specs::Reading::required_by))]
    pub fn required_u8_in(&mut self, number: u32, low: u8, high: u8) -> Result<u8, Unread>
        ensures exact { RequiredGives (λ n. value.number (pos n))
            (form.context number (form.integer (pos low) (pos high))) self.old self.new result }
        ensures kept { self.new.lengths ≡ self.old.lengths }
        ensures no_memory { NeedsNoMemory result }
    {
        let element = self.required(Tag::primitive(number))?;
        unsigned8_in(element.contents, low, high)
    }

    /// A number as `required_u8_in` has it, and `default` where it is missing.
    #[tactic(auto, unfolding(crate::specs::Reading::optional_by, crate::specs::Reading::defaulting))]
    pub fn defaulted_u8_in(
        &mut self,
        number: u32,
        low: u8,
        high: u8,
        default: u8,
    ) -> Result<u8, Unread>
        ensures exact { DefaultedGives
            (λ n. value.number (pos n)) (form.context number (form.integer (pos low) (pos high)))
            (value.number (pos default)) self.old self.new result }
        ensures kept { self.new.lengths ≡ self.old.lengths }
        ensures no_memory { NeedsNoMemory result }
    {
        match self.optional(Tag::primitive(number))? {
            None => Ok(default),
            Some(element) => unsigned8_in(element.contents, low, high),
        }
    }

    /// A number of 16 bits without a sign, from `low` to `high`, under the context tag `number`.
    #[tactic(auto, unfolding(crate::specs::Reading::required_by))]
    pub fn required_u16_in(&mut self, number: u32, low: u16, high: u16) -> Result<u16, Unread>
        ensures exact { RequiredGives (λ n. value.number (pos n))
            (form.context number (form.integer (pos low) (pos high))) self.old self.new result }
        ensures kept { self.new.lengths ≡ self.old.lengths }
        ensures no_memory { NeedsNoMemory result }
    {
        let element = self.required(Tag::primitive(number))?;
        unsigned16_in(element.contents, low, high)
    }

    /// A number of 16 bits without a sign under the context tag `number`.
    pub fn required_u16(&mut self, number: u32) -> Result<u16, Unread>
        ensures exact { RequiredGives (λ n. value.number (pos n))
            (form.context number form.unsigned16) self.old self.new result }
        ensures kept { self.new.lengths ≡ self.old.lengths }
        ensures no_memory { NeedsNoMemory result }
    {
        Ok(self.required_integer(number, 0, 65535)? as u16)
    }

    /// A number of 32 bits without a sign under the context tag `number`.
    pub fn required_u32(&mut self, number: u32) -> Result<u32, Unread>
        ensures exact { RequiredGives (λ n. value.number (pos n))
            (form.context number form.unsigned32) self.old self.new result }
        ensures kept { self.new.lengths ≡ self.old.lengths }
        ensures no_memory { NeedsNoMemory result }
    {
        Ok(self.required_integer(number, 0, 4294967295)? as u32)
    }

    /// A number of 32 bits without a sign under the universal tag of INTEGER.
    #[tactic(auto, unfolding(crate::specs::Reading::required_by))]
    pub fn required_universal_u32(&mut self) -> Result<u32, Unread>
        ensures exact { RequiredGives (λ n. value.number (pos n))
            (form.universal 2 form.unsigned32) self.old self.new result }
        ensures kept { self.new.lengths ≡ self.old.lengths }
        ensures no_memory { NeedsNoMemory result }
    {
        let element = self.required(Tag::universal(2))?;
        unsigned32(element.contents)
    }

    /// A number of 8 bits with a sign under the context tag `number`, if it is there.
    pub fn optional_i8(&mut self, number: u32) -> Result<Option<i8>, Unread>
        ensures exact { OptionalGives value.number
            (form.context number form.int8) self.old self.new result }
        ensures kept { self.new.lengths ≡ self.old.lengths }
        ensures no_memory { NeedsNoMemory result }
    {
        match self.optional_integer(number, -128, 127)? {
            None => Ok(None),
            Some(n) => Ok(Some(n as i8)),
        }
    }

    /// A number of 16 bits with a sign under the context tag `number`, if it is there.
    pub fn optional_i16(&mut self, number: u32) -> Result<Option<i16>, Unread>
        ensures exact { OptionalGives value.number
            (form.context number form.int16) self.old self.new result }
        ensures kept { self.new.lengths ≡ self.old.lengths }
        ensures no_memory { NeedsNoMemory result }
    {
        match self.optional_integer(number, -32768, 32767)? {
            None => Ok(None),
            Some(n) => Ok(Some(n as i16)),
        }
    }

    /// A number of 32 bits with a sign under the context tag `number`, if it is there.
    pub fn optional_i32(&mut self, number: u32) -> Result<Option<i32>, Unread>
        ensures exact { OptionalGives value.number
            (form.context number form.int32) self.old self.new result }
        ensures kept { self.new.lengths ≡ self.old.lengths }
        ensures no_memory { NeedsNoMemory result }
    {
        match self.optional_integer(number, -2147483648, 2147483647)? {
            None => Ok(None),
            Some(n) => Ok(Some(n as i32)),
        }
    }

    /// A number of 8 bits without a sign under the context tag `number`, if it is there.
    pub fn optional_u8(&mut self, number: u32) -> Result<Option<u8>, Unread>
        ensures exact { OptionalGives (λ n. value.number (pos n))
            (form.context number form.unsigned8) self.old self.new result }
        ensures kept { self.new.lengths ≡ self.old.lengths }
        ensures no_memory { NeedsNoMemory result }
    {
        match self.optional_integer(number, 0, 255)? {
            None => Ok(None),
            Some(n) => Ok(Some(n as u8)),
        }
    }

    /// A number of 16 bits without a sign under the context tag `number`, if it is there.
    pub fn optional_u16(&mut self, number: u32) -> Result<Option<u16>, Unread>
        ensures exact { OptionalGives (λ n. value.number (pos n))
            (form.context number form.unsigned16) self.old self.new result }
        ensures kept { self.new.lengths ≡ self.old.lengths }
        ensures no_memory { NeedsNoMemory result }
    {
        match self.optional_integer(number, 0, 65535)? {
            None => Ok(None),
            Some(n) => Ok(Some(n as u16)),
        }
    }

    /// A number of 32 bits without a sign under the context tag `number`, if it is there.
    pub fn optional_u32(&mut self, number: u32) -> Result<Option<u32>, Unread>
        ensures exact { OptionalGives (λ n. value.number (pos n))
            (form.context number form.unsigned32) self.old self.new result }
        ensures kept { self.new.lengths ≡ self.old.lengths }
        ensures no_memory { NeedsNoMemory result }
    {
        match self.optional_integer(number, 0, 4294967295)? {
            None => Ok(None),
            Some(n) => Ok(Some(n as u32)),
        }
    }
}
