// What the attributes are called.
ghost use Rattle.std.specs.Prelude.{◌≡◌};
ghost use Rattle.attribute.specs.Names.{name_of};

// The name of the attribute that has the id; empty where none has, and no Option, since callers are promised the text.
// Names are no part of the table, since callers make attributes of three fields.
pub fn name_of(id: u32) -> &'static str
    ensures { result.now ≡ name_of id }
{
    match id {
        0x00008000 => "attFrom",
        0x00018004 => "attSubject",
        0x00018009 => "attMessageID",
        0x0002800C => "attBody",
        0x00030006 => "attDateStart",
        0x00030007 => "attDateEnd",
        0x00038005 => "attDateSent",
        0x00038006 => "attDateRecd",
        0x00038020 => "attDateModified",
        0x00040009 => "attRequestRes",
        0x0004800D => "attPriority",
        0x00050008 => "attAidOwner",
        0x00060000 => "attOwner",
        0x00060001 => "attSentFor",
        0x00060200 => "attDelegate",
        0x00068007 => "attMessageStatus",
        0x00070600 => "attOriginalMessageClass",
        0x00078008 => "attMessageClass",
        0x00018010 => "attAttachTitle",
        0x00038012 => "attAttachCreateDate",
        0x00038013 => "attAttachModifyDate",
        0x0006800F => "attAttachData",
        0x00068011 => "attAttachMetaFile",
        0x00069001 => "attAttachTransportFilename",
        0x00069002 => "attAttachRendData",
        0x00069003 => "attMsgProps",
        0x00069004 => "attRecipTable",
        0x00069005 => "attAttachment",
        0x00069007 => "attOemCodepage",
        0x00089006 => "attTnefVersion",
        _ => "",
    }
}
