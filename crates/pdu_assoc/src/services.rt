//! Services of the device by their numbers.

ghost use Rattle.pdu_assoc.specs.Services.{device_area};

use crate::name_list::{GetNameListRequest, GetNameListResponse};
use crate::status::{IdentifyResponse, StatusRequest, StatusResponse};
use ber_core::{Element, Memory as Full, Writer};
use ber_forms::Unread;
use mms_types::{Answer, Edition, Request};
use pdu_areas::{Area, own};
use pdu_names::{Formed, Null, read_as};
use std::alloc::Global;

/// Status, GetNameList and Identify: each by its number, with its argument and its result.
pub struct DeviceServices;

impl Area for DeviceServices {
    ghost area = { device_area };

    #[inline]
    fn read_request(
        alloc: Global,
        service: Element<'_>,
        edition: Edition,
    ) -> Result<Option<Request>, Unread> {
        match service.tag.number {
            0 => Ok(Some(Request::Status(read_as::<StatusRequest>(alloc, service, edition)?))),
            1 => Ok(Some(Request::GetNameList(read_as::<GetNameListRequest>(
                alloc, service, edition,
            )?))),
            2 => {
                read_as::<Null>(alloc, service, edition)?;
                Ok(Some(Request::Identify))
            }
            _ => Ok(None),
        }
    }

    #[inline]
    fn put_request(out: &mut Writer, request: &Request) -> Result<bool, Full> {
        match request {
            Request::Status(x) => own(StatusRequest::put_part(out, 0, x)),
            Request::GetNameList(x) => own(GetNameListRequest::put_part(out, 1, x)),
            Request::Identify => own(Null::put_part(out, 2, &())),
            _ => Ok(false),
        }
    }

    #[inline]
    fn put_answer(out: &mut Writer, answer: &Answer) -> Result<bool, Full> {
        match answer {
            Answer::Status(x) => own(StatusResponse::put_part(out, 0, x)),
            Answer::GetNameList(x) => own(GetNameListResponse::put_part(out, 1, x)),
            Answer::Identify(x) => own(IdentifyResponse::put_part(out, 2, x)),
            _ => Ok(false),
        }
    }
}
