// The table of attributes.
use crate::{Attribute, Rule};

pub const ATT_RENDERING: u32 = 0x00069002;

pub const ATT_MESSAGE_PROPERTIES: u32 = 0x00069003;

pub const ATT_RECIPIENTS: u32 = 0x00069004;

pub const ATT_ATTACHMENT_PROPERTIES: u32 = 0x00069005;

pub const ATT_CODE_PAGE: u32 = 0x00069007;

pub const ATT_VERSION: u32 = 0x00089006;

// The attributes of a message, by rising id; then those of an attachment, by rising id; then those with a part of their own.
pub const ATTRIBUTES: [Attribute; 30] = [
    Attribute {
        id: 0x00008000,
        level: 1,
        rule: Rule::Raw,
    }, // attFrom
    Attribute {
        id: 0x00018004,
        level: 1,
        rule: Rule::Text,
    }, // attSubject
    Attribute {
        id: 0x00018009,
        level: 1,
        rule: Rule::Digits,
    }, // attMessageID
    Attribute {
        id: 0x0002800C,
        level: 1,
        rule: Rule::Text,
    }, // attBody
    Attribute {
        id: 0x00030006,
        level: 1,
        rule: Rule::Date,
    }, // attDateStart
    Attribute {
        id: 0x00030007,
        level: 1,
        rule: Rule::Date,
    }, // attDateEnd
    Attribute {
        id: 0x00038005,
        level: 1,
        rule: Rule::Date,
    }, // attDateSent
    Attribute {
        id: 0x00038006,
        level: 1,
        rule: Rule::Date,
    }, // attDateRecd
    Attribute {
        id: 0x00038020,
        level: 1,
        rule: Rule::Date,
    }, // attDateModified
    Attribute {
        id: 0x00040009,
        level: 1,
        rule: Rule::YesNo,
    }, // attRequestRes
    Attribute {
        id: 0x0004800D,
        level: 1,
        rule: Rule::Priority,
    }, // attPriority
    Attribute {
        id: 0x00050008,
        level: 1,
        rule: Rule::Raw,
    }, // attAidOwner
    Attribute {
        id: 0x00060000,
        level: 1,
        rule: Rule::Raw,
    }, // attOwner
    Attribute {
        id: 0x00060001,
        level: 1,
        rule: Rule::Raw,
    }, // attSentFor
    Attribute {
        id: 0x00060200,
        level: 1,
        rule: Rule::Raw,
    }, // attDelegate
    Attribute {
        id: 0x00068007,
        level: 1,
        rule: Rule::Status,
    }, // attMessageStatus
    Attribute {
        id: 0x00070600,
        level: 1,
        rule: Rule::Class,
    }, // attOriginalMessageClass
    Attribute {
        id: 0x00078008,
        level: 1,
        rule: Rule::Class,
    }, // attMessageClass
    Attribute {
        id: 0x00018010,
        level: 2,
        rule: Rule::Text,
    }, // attAttachTitle
    Attribute {
        id: 0x00038012,
        level: 2,
        rule: Rule::Date,
    }, // attAttachCreateDate
    Attribute {
        id: 0x00038013,
        level: 2,
        rule: Rule::Date,
    }, // attAttachModifyDate
    Attribute {
        id: 0x0006800F,
        level: 2,
        rule: Rule::Raw,
    }, // attAttachData
    Attribute {
        id: 0x00068011,
        level: 2,
        rule: Rule::Raw,
    }, // attAttachMetaFile
    Attribute {
        id: 0x00069001,
        level: 2,
        rule: Rule::Text,
    }, // attAttachTransportFilename
    Attribute {
        id: ATT_RENDERING,
        level: 2,
        rule: Rule::Rendering,
    }, // attAttachRendData
    Attribute {
        id: ATT_MESSAGE_PROPERTIES,
        level: 1,
        rule: Rule::Properties,
    }, // attMsgProps
    Attribute {
        id: ATT_RECIPIENTS,
        level: 1,
        rule: Rule::Recipients,
    }, // attRecipTable
    Attribute {
        id: ATT_ATTACHMENT_PROPERTIES,
        level: 2,
        rule: Rule::Properties,
    }, // attAttachment
    Attribute {
        id: ATT_CODE_PAGE,
        level: 1,
        rule: Rule::CodePage,
    }, // attOemCodepage
    Attribute {
        id: ATT_VERSION,
        level: 1,
        rule: Rule::Version,
    }, // attTnefVersion
];
