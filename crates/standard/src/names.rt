// The names of the fields that WARC 1.1 defines.
ghost use Rattle.std.specs.Prelude.{◌≡◌};
ghost use Rattle.leaves.specs.Name.{same_name};
ghost use Rattle.standard.specs.Names.{name_of};

use leaves::names::same_name;

// The fields that WARC 1.1 names.
#[derive(Clone, Copy, Debug, PartialEq, Eq)]
pub enum WarcHeader {
    WarcType,
    WarcRecordId,
    WarcDate,
    ContentLength,
    ContentType,
    WarcConcurrentTo,
    WarcBlockDigest,
    WarcPayloadDigest,
    WarcIpAddress,
    WarcRefersTo,
    WarcRefersToTargetUri,
    WarcRefersToDate,
    WarcTargetUri,
    WarcTruncated,
    WarcWarcinfoId,
    WarcFilename,
    WarcProfile,
    WarcIdentifiedPayloadType,
    WarcSegmentOriginId,
    WarcSegmentNumber,
    WarcSegmentTotalLength,
}

// A field's name, as octets.
pub fn name_of(header: WarcHeader) -> &'static [u8]
    ensures { result.now ≡ name_of header }
{
    match header {
        WarcHeader::WarcType => b"WARC-Type",
        WarcHeader::WarcRecordId => b"WARC-Record-ID",
        WarcHeader::WarcDate => b"WARC-Date",
        WarcHeader::ContentLength => b"Content-Length",
        WarcHeader::ContentType => b"Content-Type",
        WarcHeader::WarcConcurrentTo => b"WARC-Concurrent-To",
        WarcHeader::WarcBlockDigest => b"WARC-Block-Digest",
        WarcHeader::WarcPayloadDigest => b"WARC-Payload-Digest",
        WarcHeader::WarcIpAddress => b"WARC-IP-Address",
        WarcHeader::WarcRefersTo => b"WARC-Refers-To",
        WarcHeader::WarcRefersToTargetUri => b"WARC-Refers-To-Target-URI",
        WarcHeader::WarcRefersToDate => b"WARC-Refers-To-Date",
        WarcHeader::WarcTargetUri => b"WARC-Target-URI",
        WarcHeader::WarcTruncated => b"WARC-Truncated",
        WarcHeader::WarcWarcinfoId => b"WARC-Warcinfo-ID",
        WarcHeader::WarcFilename => b"WARC-Filename",
        WarcHeader::WarcProfile => b"WARC-Profile",
        WarcHeader::WarcIdentifiedPayloadType => b"WARC-Identified-Payload-Type",
        WarcHeader::WarcSegmentOriginId => b"WARC-Segment-Origin-ID",
        WarcHeader::WarcSegmentNumber => b"WARC-Segment-Number",
        WarcHeader::WarcSegmentTotalLength => b"WARC-Segment-Total-Length",
    }
}

// Whether a text is a field's name.
pub fn is_named(text: &[u8], header: WarcHeader) -> bool
    ensures { result ≡ same_name text.now (name_of header) }
{
    same_name(text, name_of(header))
}
