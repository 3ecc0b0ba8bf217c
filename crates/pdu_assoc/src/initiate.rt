//! initiate-Request and initiate-Response.
#![tactic(auto, unfolding(ber_forms::specs::Spelling::appended), using(ber_forms::proofs::Joined::writing))]

ghost use Rattle.std.specs.Prelude.{refl, true};
ghost use Rattle.pdu_assoc.specs.Initiate.{detail, initiate, initiate_answer};

use ber_core::{Bits, Memory as Full, Tag, Writer};
use ber_forms::{
    Unread, named_bits, put_bit_string, put_integer, put_optional_i8, put_optional_i32,
};
use mms_types::{
    Edition, Initiate, InitiateAnswer, InitiateDetail, ParameterOptions, ServiceOptions,
};
use pdu_names::{Formed, cursor, required};
use std::alloc::Global;

/// The form of a version and of what a side supports (ISO 9506-2, initRequestDetail and initResponseDetail).
pub struct Detail;

impl Formed for Detail {
    type Item = InitiateDetail;

    ghost kind = { detail };

    ghost needs_no_memory = { true };

    fn is_constructed() -> bool {
        true
    }

    #[tactic(auto, unfolding(ber_forms::specs::Reading::required_by))]
    fn read(_alloc: Global, contents: &[u8], edition: Edition) -> Result<InitiateDetail, Unread> {
        let mut parts = cursor(edition, contents);
        let version = parts.required_i16(0)?;
        let parameters = parts.required(Tag::primitive(1))?;
        let parameters = named_bits::<2>(parameters.contents, 11)?;
        let services = parts.required(Tag::primitive(2))?;
        let services = named_bits::<11>(services.contents, 85)?;
        parts.end()?;
        Ok(InitiateDetail {
            version,
            parameters: ParameterOptions { octets: parameters },
            services: ServiceOptions { octets: services },
        })
    }

    fn put(out: &mut Writer, x: &InitiateDetail) -> Result<(), Full> {
        let parameters = Bits {
            unused: 5,
            octets: &x.parameters.octets,
        };
        let services = Bits {
            unused: 3,
            octets: &x.services.octets,
        };
        put_integer(out, 0, i64::from(x.version))?;
        put_bit_string(out, 1, parameters)?;
        put_bit_string(out, 2, services)
    }

    ghost sound = { λ _. refl };
}

/// The form of an initiate-Request.
pub struct InitiateRequest;

impl Formed for InitiateRequest {
    type Item = Initiate;

    ghost kind = { initiate };

    ghost needs_no_memory = { true };

    fn is_constructed() -> bool {
        true
    }

    fn read(alloc: Global, contents: &[u8], edition: Edition) -> Result<Initiate, Unread> {
        let mut parts = cursor(edition, contents);
        let size = parts.optional_i32(0)?;
        let calling = parts.required_i16(1)?;
        let called = parts.required_i16(2)?;
        let nesting = parts.optional_i8(3)?;
        let detail = required::<Detail>(alloc, &mut parts, edition, 4)?;
        parts.end()?;
        Ok(Initiate {
            size,
            calling,
            called,
            nesting,
            detail,
        })
    }

    fn put(out: &mut Writer, x: &Initiate) -> Result<(), Full> {
        put_optional_i32(out, 0, x.size)?;
        put_integer(out, 1, i64::from(x.calling))?;
        put_integer(out, 2, i64::from(x.called))?;
        put_optional_i8(out, 3, x.nesting)?;
        Detail::put_part(out, 4, &x.detail)
    }

    ghost sound = { λ _. refl };
}

/// The form of an initiate-Response, with the negotiated values, all of them.
pub struct InitiateResponse;

impl Formed for InitiateResponse {
    type Item = InitiateAnswer;

    ghost kind = { initiate_answer };

    ghost needs_no_memory = { true };

    fn is_constructed() -> bool {
        true
    }

    fn read(alloc: Global, contents: &[u8], edition: Edition) -> Result<InitiateAnswer, Unread> {
        let mut parts = cursor(edition, contents);
        let size = parts.required_i32(0)?;
        let calling = parts.required_i16(1)?;
        let called = parts.required_i16(2)?;
        let nesting = parts.required_i8(3)?;
        let detail = required::<Detail>(alloc, &mut parts, edition, 4)?;
        parts.end()?;
        Ok(InitiateAnswer {
            size,
            calling,
            called,
            nesting,
            detail,
        })
    }

    fn put(out: &mut Writer, x: &InitiateAnswer) -> Result<(), Full> {
        put_integer(out, 0, i64::from(x.size))?;
        put_integer(out, 1, i64::from(x.calling))?;
        put_integer(out, 2, i64::from(x.called))?;
        put_integer(out, 3, i64::from(x.nesting))?;
        Detail::put_part(out, 4, &x.detail)
    }

    ghost sound = { λ _. refl };
}
