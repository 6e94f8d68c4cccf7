// Fixed texts by text number.
ghost use Rattle.std.specs.Prelude.{◌≡◌, ◌≤◌, ◌<◌};
ghost use Rattle.octets.specs.Emit.{Emits};
ghost use Rattle.names.specs.Texts.{text_of};

use octets::emit::put_octets;

// The texts that no table of codes has.
pub const QUESTION: u32 = 123;

pub const DATA: u32 = 124;

pub const CALL_REQUEST: u32 = 125;

pub const CALL_ACCEPTED: u32 = 126;

pub const CLEAR_REQUEST: u32 = 127;

pub const RESET_REQUEST: u32 = 128;

pub const RESTART_REQUEST: u32 = 129;

pub const CLEAR_CONFIRMATION: u32 = 130;

pub const RESET_CONFIRMATION: u32 = 131;

pub const RESTART_CONFIRMATION: u32 = 132;

pub const DIAGNOSTIC: u32 = 133;

pub const RR: u32 = 134;

pub const RNR: u32 = 135;

pub const REJ: u32 = 136;

pub const CLNP_COMPRESSED: u32 = 137;

pub const UNKNOWN: u32 = 142;

pub const ES_IS: u32 = 143;

pub const ESH: u32 = 144;

pub const ISH: u32 = 145;

pub const RD: u32 = 146;

pub const IDRP: u32 = 194;

pub const ACA: u32 = 195;

pub const DEFLATE: u32 = 196;

pub const LREF: u32 = 197;

pub const LREF_CAN: u32 = 198;

pub const AOC: u32 = 208;

pub const SECURITY_CLASSIFICATION: u32 = 230;

pub const SUBNET_TYPE: u32 = 231;

pub const SUPPORTED_ATSC_CLASSES: u32 = 232;

pub const TRAFFIC_TYPE: u32 = 233;

pub const ATN_OPERATIONAL: u32 = 234;

pub const ATSC: u32 = 235;

pub const ATN_ADMINISTRATIVE: u32 = 236;

pub const NONE: u32 = 237;

pub const ATN_SYSTEM_MANAGEMENT: u32 = 238;

pub const GLOBALLY_UNIQUE: u32 = 239;

pub const DT: u32 = 240;

pub const ERQ: u32 = 241;

pub const ERP: u32 = 242;

pub const ER: u32 = 243;

pub const CLNP: u32 = 244;

pub const CR: u32 = 281;

pub const CC: u32 = 282;

pub const DR: u32 = 283;

pub const DC: u32 = 284;

pub const ED: u32 = 285;

pub const AK: u32 = 286;

pub const EA: u32 = 287;

pub const RJ: u32 = 288;

// The largest text number.
pub const LAST: u32 = 288;

// X.25.
#[tactic(auto, unfolding(crate::specs::Texts::texts))]
fn x25_text(number: u32) -> &'static [u8]
    ensures { number < 137 → result.now ≡ text_of number }
{
    match number {
        0 => b"",
        1 => b"DTE originated",
        2 => b"Number busy",
        3 => b"Invalid facility request",
        4 => b"Network congestion",
        5 => b"Remote procedure error",
        6 => b"Not obtainable",
        7 => b"Local procedure error",
        8 => b"ROA out of order",
        9 => b"Reverse charging acceptance not subscribed",
        10 => b"Incompatible destination",
        11 => b"Fast select acceptance not subscribed",
        12 => b"Ship absent",
        13 => b"Out of order",
        14 => b"Remote DTE operational",
        15 => b"Network operational",
        16 => b"Network out of order",
        17 => b"Cleared by system management",
        18 => b"Invalid P(S)",
        19 => b"Invalid P(R)",
        20 => b"Packet type invalid",
        21 => b"Packet type invalid for state r1",
        22 => b"Packet type invalid for state r2",
        23 => b"Packet type invalid for state r3",
        24 => b"Packet type invalid for state p1",
        25 => b"Packet type invalid for state p2",
        26 => b"Packet type invalid for state p3",
        27 => b"Packet type invalid for state p4",
        28 => b"Packet type invalid for state p5",
        29 => b"Packet type invalid for state p6",
        30 => b"Packet type invalid for state p7",
        31 => b"Packet type invalid for state d1",
        32 => b"Packet type invalid for state d2",
        33 => b"Packet type invalid for state d3",
        34 => b"Packet not allowed",
        35 => b"Unidentifiable packet",
        36 => b"Call on one-way logical channel",
        37 => b"Invalid packet type on a PVC",
        38 => b"Packet on unassigned logical channel",
        39 => b"Reject not subscribed to",
        40 => b"Packet too short",
        41 => b"Packet too long",
        42 => b"Invalid general format identifier",
        43 => b"Restart packet with non-zero reserved bits",
        44 => b"Packet type not compatible with facility",
        45 => b"Unauthorized interrupt confirmation",
        46 => b"Unauthorized interrupt",
        47 => b"Unauthorized reject",
        48 => b"TOA/NPI address subscription facility not subscribed to",
        49 => b"Time expired",
        50 => b"Time expired for incoming call",
        51 => b"Time expired for clear indication",
        52 => b"Time expired for reset indication",
        53 => b"Time expired for restart indication",
        54 => b"Time expired for call deflection",
        55 => b"Call setup or call clearing problem",
        56 => b"Facility code not allowed",
        57 => b"Facility parameter not allowed",
        58 => b"Invalid called DTE address",
        59 => b"Invalid calling DTE address",
        60 => b"Invalid facility length",
        61 => b"Incoming call barred",
        62 => b"No logical channel available",
        63 => b"Call collision",
        64 => b"Duplicate facility requested",
        65 => b"Non-zero address length",
        66 => b"Non-zero facility length",
        67 => b"Facility not provided when expected",
        68 => b"Invalid ITU-T specified DTE facility",
        69 => b"Max number of call redirections or deflections exceeded",
        70 => b"Miscellaneous",
        71 => b"Improper cause code from DTE",
        72 => b"Not aligned octet",
        73 => b"Inconsistent Q-bit setting",
        74 => b"NUI problem",
        75 => b"ICRD problem",
        76 => b"International problem",
        77 => b"Remote network problem",
        78 => b"International protocol problem",
        79 => b"International link out of order",
        80 => b"International link busy",
        81 => b"Transit network facility problem",
        82 => b"Remote network facility problem",
        83 => b"International routing problem",
        84 => b"Temporary routing problem",
        85 => b"Unknown called DNIC",
        86 => b"Maintenance action",
        87 => b"Version number not supported",
        88 => b"Invalid length field",
        89 => b"Call collision resolution",
        90 => b"Proposed directory size too large",
        91 => b"LREF cancellation not supported",
        92 => b"Received DTE refused, received NET refused or invalid NET selector",
        93 => b"Invalid SNCR field",
        94 => b"ACA compression not supported",
        95 => b"LREF compression not supported",
        96 => b"Deflate compression not supported",
        97 => b"Idle timer expired",
        98 => b"Need to reuse the circuit",
        99 => b"System local error",
        100 => b"Invalid SEL field value in received NET",
        101 => b"OSI network disconnect (transient)",
        102 => b"OSI network disconnect (permanent)",
        103 => b"OSI network reject - reason unspecified (transient)",
        104 => b"OSI network reject - reason unspecified (permanent)",
        105 => b"OSI network reject - QoS not available (transient)",
        106 => b"OSI network reject - QoS not available (permanent)",
        107 => b"OSI network reject - NSAP unreachable (transient)",
        108 => b"OSI network reject - NSAP unreachable (permanent)",
        109 => b"OSI network reset - no reason given",
        110 => b"OSI network reset - congestion",
        111 => b"OSI network reject - NSAP address unknown (permanent)",
        112 => b"System lack of resources",
        113 => b"Higher level initiated disconnect (normal)",
        114 => b"Incompatible information in user data",
        115 => b"Higher level initiated disconnect - incompatible data",
        116 => b"Higher level initiated reject - no reason given (transient)",
        117 => b"Higher level initiated reject - no reason given (permanent)",
        118 => b"Higher level initiated reject - QoS not available (transient)",
        119 => b"Higher level initiated reject - QoS not available (permanent)",
        120 => b"Higher level initiated reject - incompatible data",
        121 => b"Unrecognized protocol ID",
        122 => b"Higher level initiated reset - user resync",
        123 => b"?",
        124 => b"data",
        125 => b"call-request",
        126 => b"call-accepted",
        127 => b"clear-request",
        128 => b"reset-request",
        129 => b"restart-request",
        130 => b"clear-confirmation",
        131 => b"reset-confirmation",
        132 => b"restart-confirmation",
        133 => b"diagnostic",
        134 => b"rr",
        135 => b"rnr",
        136 => b"rej",
        137.. => b"",
    }
}

// Unknown codes, ES-IS and IDRP.
#[tactic(auto, unfolding(crate::specs::Texts::texts))]
fn routing_text(number: u32) -> &'static [u8]
    ensures { 137 ≤ number → number < 195 → result.now ≡ text_of number }
{
    match number {
        ..137 => b"",
        137 => b"clnp-compressed?",
        138 => b"mobile-subnetwork-capabilities",
        139 => b"atn-data-link-capabilities",
        140 => b"priority",
        141 => b"security",
        142 => b"unknown",
        143 => b"ES-IS",
        144 => b"ESH",
        145 => b"ISH",
        146 => b"RD",
        147 => b"route",
        148 => b"ext-info",
        149 => b"rd-path",
        150 => b"next-hop",
        151 => b"distribute-list-incl",
        152 => b"distribute-list-excl",
        153 => b"multi-exit-disc",
        154 => b"transit-delay",
        155 => b"residual-error",
        156 => b"expense",
        157 => b"locally-defined-qos",
        158 => b"hierarchical-recording",
        159 => b"rd-hop-count",
        160 => b"capacity",
        161 => b"OPEN",
        162 => b"UPDATE",
        163 => b"ERROR",
        164 => b"KEEPALIVE",
        165 => b"CEASE",
        166 => b"RIB-REFRESH",
        167 => b"Open PDU error",
        168 => b"Update PDU error",
        169 => b"Hold timer expired",
        170 => b"FSM error",
        171 => b"RIB Refresh PDU error",
        172 => b"Unsupported version number",
        173 => b"Bad max PDU size",
        174 => b"Bad peer RD",
        175 => b"Unsupported auth code",
        176 => b"Auth failure",
        177 => b"Bad RIB-AttsSet",
        178 => b"RDC Mismatch",
        179 => b"Malformed attribute list",
        180 => b"Unrecognized well-known attribute",
        181 => b"Missing well-known attribute",
        182 => b"Attribute flags error",
        183 => b"Attribute length error",
        184 => b"RD routing loop",
        185 => b"Invalid NEXT_HOP attribute",
        186 => b"Optional attribute error",
        187 => b"Invalid reachability information",
        188 => b"Misconfigured RDCs",
        189 => b"Malformed NLRI",
        190 => b"Duplicated attributes",
        191 => b"Illegal RD path segment",
        192 => b"Invalid opcode",
        193 => b"Unsupported RIB-Atts",
        194 => b"IDRP",
        195.. => b"",
    }
}

// CLNP, its options and security labels.
#[tactic(auto, unfolding(crate::specs::Texts::texts))]
fn clnp_text(number: u32) -> &'static [u8]
    ensures { 195 ≤ number → number < 245 → result.now ≡ text_of number }
{
    match number {
        ..195 => b"",
        195 => b"ACA",
        196 => b"DEFLATE",
        197 => b"LREF",
        198 => b"LREF-CAN",
        199 => b"lref",
        200 => b"discard_reason",
        201 => b"qos_maintenance",
        202 => b"prefix_scope_control",
        203 => b"radius_scope_control",
        204 => b"source_routing",
        205 => b"record_route",
        206 => b"padding",
        207 => b"ATS",
        208 => b"AOC",
        209 => b"ATN Administrative",
        210 => b"General Comms",
        211 => b"ATN System Mgmt",
        212 => b"A",
        213 => b"B",
        214 => b"C",
        215 => b"D",
        216 => b"E",
        217 => b"F",
        218 => b"G",
        219 => b"H",
        220 => b"Mode S",
        221 => b"VDL",
        222 => b"AMSS",
        223 => b"Gatelink",
        224 => b"HF",
        225 => b"unclassified",
        226 => b"restricted",
        227 => b"confidential",
        228 => b"secret",
        229 => b"top secret",
        230 => b"security_classification",
        231 => b"subnet_type",
        232 => b"supported_atsc_classes",
        233 => b"traffic_type",
        234 => b"ATN operational",
        235 => b"ATSC",
        236 => b"ATN administrative",
        237 => b"none",
        238 => b"ATN system management",
        239 => b"globally-unique",
        240 => b"DT",
        241 => b"ERQ",
        242 => b"ERP",
        243 => b"ER",
        244 => b"CLNP",
        245.. => b"",
    }
}

// COTP.
#[tactic(auto, unfolding(crate::specs::Texts::texts))]
fn cotp_text(number: u32) -> &'static [u8]
    ensures { 245 ≤ number → number < 289 → result.now ≡ text_of number }
{
    match number {
        ..245 => b"",
        245 => b"Reason not specified",
        246 => b"TSAP congestion",
        247 => b"Session entity not attached to TSAP",
        248 => b"Unknown address",
        249 => b"Normal disconnect",
        250 => b"Remote transport entity congestion",
        251 => b"Connection negotiation failed",
        252 => b"Duplicate source reference",
        253 => b"Mismatched references",
        254 => b"Protocol error",
        255 => b"Reference overflow",
        256 => b"Connection request refused",
        257 => b"Header or parameter length invalid",
        258 => b"Invalid parameter code",
        259 => b"Invalid TPDU type",
        260 => b"Invalid parameter value",
        261 => b"atn_checksum",
        262 => b"ack_time_ms",
        263 => b"residual_error_rate",
        264 => b"transit_delay",
        265 => b"throughput",
        266 => b"subseq_num",
        267 => b"reassignment_time_sec",
        268 => b"flow_control",
        269 => b"sack",
        270 => b"tpdu_size",
        271 => b"calling_transport_selector",
        272 => b"called_responding_transport_selector",
        273 => b"checksum",
        274 => b"version",
        275 => b"protection_params",
        276 => b"additional_options",
        277 => b"additional_proto_classes",
        278 => b"additional_info",
        279 => b"preferred_max_tpdu_size",
        280 => b"inactivity_timer_ms",
        281 => b"CR",
        282 => b"CC",
        283 => b"DR",
        284 => b"DC",
        285 => b"ED",
        286 => b"AK",
        287 => b"EA",
        288 => b"RJ",
        289.. => b"",
    }
}

fn text(number: u32) -> &'static [u8]
    ensures { result.now ≡ text_of number }
{
    match number {
        ..137 => x25_text(number),
        137..195 => routing_text(number),
        195..245 => clnp_text(number),
        245..289 => cotp_text(number),
        289.. => b"",
    }
}

// The text of a text number, without its quotes; nothing for a number that is no text's.
pub fn put_text(out: &mut [u8], at: usize, number: u32) -> usize
    ensures { Emits out.old at (text_of number) out.new result }
{
    put_octets(out, at, text(number))
}
