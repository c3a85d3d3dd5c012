use crate::pages::Pages;
use sheets::{AttachmentCc, AttachmentMm};

pub(crate) mod calls;

/// A filing that was read, by its template.
#[derive(Drop)]
pub enum Filing {
    Mm(Pages<AttachmentMm>),
    Cc(Pages<AttachmentCc>),
}
