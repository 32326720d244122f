//! Frames of strokes on the row: magic and connectivity, the SHA-256 of the raw file of the mask, the numbers of
//! strokes and of tombstones, and these. In a state file each stands behind its length.

/// The stroke of tag 1, of level 9 at x = 1, as a datagram.
pub const FIRST: &[u8] = b"SPD1\x04\
    \xb2\xf1\x2a\xe1\xb5\x74\x90\x4e\x86\x3f\xd8\xdd\xc6\xb6\x7a\xb4\
    \xda\x2f\x6f\x78\x0c\x80\xba\x31\x0e\x75\x7a\xd2\xa9\x3b\xb0\xac\
    \0\x01\0\0\
    \0\0\0\0\0\0\0\0\0\0\0\0\0\0\0\x01\0\x09\0\x01\0\0\0\x01\0\x01";

/// The same for another fingerprint.
pub const OF_ANOTHER_IMAGE: &[u8] = b"SPD1\x04\
    \0\0\0\0\0\0\0\0\0\0\0\0\0\0\0\0\0\0\0\0\0\0\0\0\0\0\0\0\0\0\0\0\
    \0\x01\0\0\
    \0\0\0\0\0\0\0\0\0\0\0\0\0\0\0\x01\0\x09\0\x01\0\0\0\x01\0\x01";

/// The stroke of tag 2, of level 3 at x = 4, in a file.
pub const SECOND: &[u8] = b"\x00\x44SPD2\x04\
    \xb2\xf1\x2a\xe1\xb5\x74\x90\x4e\x86\x3f\xd8\xdd\xc6\xb6\x7a\xb4\
    \xda\x2f\x6f\x78\x0c\x80\xba\x31\x0e\x75\x7a\xd2\xa9\x3b\xb0\xac\
    \0\x01\0\0\
    \0\0\0\0\0\0\0\0\0\0\0\0\0\0\0\x02\0\0\x03\0\x01\0\0\0\x04\0\x04";

/// Both strokes in a file.
pub const BOTH: &[u8] = b"\x00\x5fSPD2\x04\
    \xb2\xf1\x2a\xe1\xb5\x74\x90\x4e\x86\x3f\xd8\xdd\xc6\xb6\x7a\xb4\
    \xda\x2f\x6f\x78\x0c\x80\xba\x31\x0e\x75\x7a\xd2\xa9\x3b\xb0\xac\
    \0\x02\0\0\
    \0\0\0\0\0\0\0\0\0\0\0\0\0\0\0\x01\0\0\x09\0\x01\0\0\0\x01\0\x01\
    \0\0\0\0\0\0\0\0\0\0\0\0\0\0\0\x02\0\0\x03\0\x01\0\0\0\x04\0\x04";
