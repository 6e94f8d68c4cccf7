// JSON keys by field number.
ghost use Rattle.std.specs.Prelude.{◌≡◌};
ghost use Rattle.octets.specs.Emit.{Emits};
ghost use Rattle.names.specs.Keys.{key_text};

use octets::emit::put_octets;

pub const LCN: u8 = 1;

pub const KIND: u8 = 2;

pub const PS: u8 = 3;

pub const PR: u8 = 4;

pub const MORE: u8 = 5;

pub const CAUSE: u8 = 6;

pub const CAUSE_TEXT: u8 = 7;

pub const DIAGNOSTIC: u8 = 8;

pub const DIAGNOSTIC_TEXT: u8 = 9;

pub const FACILITIES: u8 = 10;

pub const SNDCF: u8 = 11;

pub const PROTOCOL: u8 = 12;

pub const FIRST: u8 = 13;

pub const PAYLOAD_LEN: u8 = 14;

pub const TYPE: u8 = 15;

pub const HOLDING_TIME_S: u8 = 16;

pub const ADDRESSES: u8 = 17;

pub const OPTIONS: u8 = 18;

pub const TYPE_CODE: u8 = 19;

pub const VALUE_HEX: u8 = 20;

pub const BISPDU_LEN: u8 = 21;

pub const SEQUENCE: u8 = 22;

pub const ACK: u8 = 23;

pub const CREDIT_OFFERED: u8 = 24;

pub const CREDIT_AVAIL: u8 = 25;

pub const OPEN: u8 = 26;

pub const UPDATE: u8 = 27;

pub const ERROR_CODE: u8 = 28;

pub const ERROR: u8 = 29;

pub const ERROR_SUBCODE: u8 = 30;

pub const ERROR_SUBCODE_TEXT: u8 = 31;

pub const VERSION: u8 = 32;

pub const HOLD_TIME_S: u8 = 33;

pub const MAX_PDU_SIZE: u8 = 34;

pub const SRC_RDI: u8 = 35;

pub const WITHDRAWN_ROUTES: u8 = 36;

pub const VALUE: u8 = 37;

pub const PATH_ATTRIBUTES: u8 = 38;

pub const PROTO_TYPE: u8 = 39;

pub const CLNP: u8 = 40;

pub const PREFIXES: u8 = 41;

pub const NLRI: u8 = 42;

pub const COMPRESSION_OPTIONS: u8 = 43;

pub const COMPRESSION_ALGOS: u8 = 44;

pub const MAINTENANCE: u8 = 45;

pub const CODE: u8 = 46;

pub const PARAMS: u8 = 47;

pub const TAG_SET: u8 = 48;

pub const CLASS_ID: u8 = 49;

pub const CLASS_NAME: u8 = 50;

pub const SUBNET_ID: u8 = 51;

pub const SUBNET_NAME: u8 = 52;

pub const PERMITTED_TRAFFIC_TYPES: u8 = 53;

pub const CLASSES: u8 = 54;

pub const TRAFFIC_TYPE: u8 = 55;

pub const CATEGORY: u8 = 56;

pub const ROUTE_POLICY: u8 = 57;

pub const REG_ID: u8 = 58;

pub const SEC_INFO: u8 = 59;

pub const NAME: u8 = 60;

pub const PRIORITY: u8 = 61;

pub const REASON: u8 = 62;

pub const SECURITY_FORMAT: u8 = 63;

pub const SECURITY_LABEL: u8 = 64;

pub const LIFETIME_500MS: u8 = 65;

pub const SEG_LEN: u8 = 66;

pub const DST_NSAP: u8 = 67;

pub const SRC_NSAP: u8 = 68;

pub const ERROR_REPORT: u8 = 69;

pub const MORE_SEGMENTS: u8 = 70;

pub const PDU_ID: u8 = 71;

pub const SEGMENT_OFFSET: u8 = 72;

pub const TOTAL_LEN: u8 = 73;

pub const SEGMENTED: u8 = 74;

pub const COTP: u8 = 75;

pub const TPDU_SIZE: u8 = 76;

pub const TPDU: u8 = 77;

pub const DST_REF: u8 = 78;

pub const SRC_REF: u8 = 79;

pub const CLASS: u8 = 80;

pub const REASON_TEXT: u8 = 81;

pub const REJECT_CAUSE: u8 = 82;

pub const REJECT_CAUSE_TEXT: u8 = 83;

pub const ROA: u8 = 84;

pub const EOT: u8 = 85;

pub const TPDU_SEQ: u8 = 86;

pub const CREDIT: u8 = 87;

pub const EXTENDED: u8 = 88;

pub const USER_DATA_LEN: u8 = 89;

pub const TSDU_SEGMENT: u8 = 90;

// The largest field number.
pub const LAST: u8 = 90;

// The key of a field number; nothing for a number that is no key's.
#[tactic(auto, unfolding(crate::specs::Keys::keys))]
fn key(number: u8) -> &'static [u8]
    ensures { result.now ≡ key_text number }
{
    match number {
        0 => b"",
        1 => b"lcn",
        2 => b"kind",
        3 => b"ps",
        4 => b"pr",
        5 => b"more",
        6 => b"cause",
        7 => b"cause_text",
        8 => b"diagnostic",
        9 => b"diagnostic_text",
        10 => b"facilities",
        11 => b"sndcf",
        12 => b"protocol",
        13 => b"first",
        14 => b"payload_len",
        15 => b"type",
        16 => b"holding_time_s",
        17 => b"addresses",
        18 => b"options",
        19 => b"type_code",
        20 => b"value_hex",
        21 => b"bispdu_len",
        22 => b"sequence",
        23 => b"ack",
        24 => b"credit_offered",
        25 => b"credit_avail",
        26 => b"open",
        27 => b"update",
        28 => b"error_code",
        29 => b"error",
        30 => b"error_subcode",
        31 => b"error_subcode_text",
        32 => b"version",
        33 => b"hold_time_s",
        34 => b"max_pdu_size",
        35 => b"src_rdi",
        36 => b"withdrawn_routes",
        37 => b"value",
        38 => b"path_attributes",
        39 => b"proto_type",
        40 => b"clnp",
        41 => b"prefixes",
        42 => b"nlri",
        43 => b"compression_options",
        44 => b"compression_algos",
        45 => b"maintenance",
        46 => b"code",
        47 => b"params",
        48 => b"tag_set",
        49 => b"class_id",
        50 => b"class_name",
        51 => b"subnet_id",
        52 => b"subnet_name",
        53 => b"permitted_traffic_types",
        54 => b"classes",
        55 => b"traffic_type",
        56 => b"category",
        57 => b"route_policy",
        58 => b"reg_id",
        59 => b"sec_info",
        60 => b"name",
        61 => b"priority",
        62 => b"reason",
        63 => b"security_format",
        64 => b"security_label",
        65 => b"lifetime_500ms",
        66 => b"seg_len",
        67 => b"dst_nsap",
        68 => b"src_nsap",
        69 => b"error_report",
        70 => b"more_segments",
        71 => b"pdu_id",
        72 => b"segment_offset",
        73 => b"total_len",
        74 => b"segmented",
        75 => b"cotp",
        76 => b"tpdu_size",
        77 => b"tpdu",
        78 => b"dst_ref",
        79 => b"src_ref",
        80 => b"class",
        81 => b"reason_text",
        82 => b"reject_cause",
        83 => b"reject_cause_text",
        84 => b"roa",
        85 => b"eot",
        86 => b"tpdu_seq",
        87 => b"credit",
        88 => b"extended",
        89 => b"user_data_len",
        90 => b"tsdu_segment",
        91.. => b"",
    }
}

// The key of a field number, without its quotes; nothing for a number that is no key's.
pub fn put_key(out: &mut [u8], at: usize, number: u8) -> usize
    ensures { Emits out.old at (key_text number) out.new result }
{
    put_octets(out, at, key(number))
}
