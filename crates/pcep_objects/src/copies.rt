//! Copies of objects and of their parts.

use crate::object::{Identifiers, Kept, LspObject, Lspa, Object, Operational, RsvpError, Srp};
use crate::session_objects::PcepError;
use sequence::PlainData;
use std::alloc::AllocError;

impl PlainData for Operational {
    fn copy(&self) -> Result<Operational, AllocError> {
        Ok(*self)
    }
}

impl PlainData for Identifiers {
    fn copy(&self) -> Result<Identifiers, AllocError> {
        Ok(*self)
    }
}

impl PlainData for RsvpError {
    fn copy(&self) -> Result<RsvpError, AllocError> {
        Ok(*self)
    }
}

impl PlainData for Srp {
    fn copy(&self) -> Result<Srp, AllocError> {
        Ok(*self)
    }
}

impl PlainData for Lspa {
    fn copy(&self) -> Result<Lspa, AllocError> {
        Ok(*self)
    }
}

impl PlainData for PcepError {
    fn copy(&self) -> Result<PcepError, AllocError> {
        Ok(*self)
    }
}

impl PlainData for Kept {
    fn copy(&self) -> Result<Kept, AllocError> {
        Ok(Kept {
            class: self.class,
            p: self.p,
            body: self.body.copy()?,
        })
    }
}

impl PlainData for LspObject {
    fn copy(&self) -> Result<LspObject, AllocError> {
        Ok(LspObject {
            plsp: self.plsp,
            delegate: self.delegate,
            sync: self.sync,
            remove: self.remove,
            admin: self.admin,
            operational: self.operational,
            created: self.created,
            name: self.name.copy()?,
            identifiers: self.identifiers.copy()?,
            error_code: self.error_code,
            rsvp_error: self.rsvp_error,
        })
    }
}

impl PlainData for Object {
    fn copy(&self) -> Result<Object, AllocError> {
        match self {
            Object::Open(open) => Ok(Object::Open(*open)),
            Object::Rp(rp) => Ok(Object::Rp(*rp)),
            Object::NoPath(no_path) => Ok(Object::NoPath(*no_path)),
            Object::EndPoints(end_points) => Ok(Object::EndPoints(*end_points)),
            Object::Bandwidth(kind, bandwidth) => Ok(Object::Bandwidth(*kind, *bandwidth)),
            Object::Metric(metric) => Ok(Object::Metric(*metric)),
            Object::Ero(hops) => Ok(Object::Ero(hops.copy()?)),
            Object::Rro(hops) => Ok(Object::Rro(hops.copy()?)),
            Object::Lspa(lspa) => Ok(Object::Lspa(*lspa)),
            Object::Kept(kept) => Ok(Object::Kept(kept.copy()?)),
            Object::Notification(notification) => Ok(Object::Notification(*notification)),
            Object::Error(error) => Ok(Object::Error(*error)),
            Object::Close(close) => Ok(Object::Close(*close)),
            Object::Lsp(lsp) => Ok(Object::Lsp(lsp.copy()?)),
            Object::Srp(srp) => Ok(Object::Srp(*srp)),
        }
    }
}
