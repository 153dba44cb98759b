//! The texts of `--help` and `--version`.

/// The text of `--help`.
pub(crate) const HELP: &str = "\
spf_gate_watch - answer presented SPIFFE IDs by a policy, from a live source

Usage:
  spf_gate_watch < INPUT
  spf_gate_watch --help | --version

The input begins with a policy, one rule a line, up to a line `---`:

  allow|deny id ID          this ID
  allow|deny domain NAME    each ID of this trust domain
  allow|deny prefix ID      IDs with this path, or this path and / and more

Empty lines and lines that begin with # are skipped. Each line after the policy
is an ask. It is answered with one line, from what the agent at the endpoint
that SPIFFE_ENDPOINT_SOCKET names has last said; R is the revision of that, and
N the number of the first rule that matches:

  admitted R N ID     denied R N ID     no-rule R ID
  no-bundle R ID      there is no bundle of the ID's trust domain
  withdrawn R ID      the agent denied an identity
  bad-id E            the ask is no ID. E says why: 1 empty, 2 too long, 3 no
                      spiffe://, 4 no trust domain, 5 trust domain too long,
                      6 bad character in it, 7 empty segment, 8 . or .. as a
                      segment, 9 bad character in the path, 10 / at the end

Status: 0 all asks answered, 1 read failed, 2 write failed, 3 bad rule, 4 no end
of the policy, 5 line too long, 6 line is no text, 7 too many lines, 8 out of
memory, 9 bad words, 11 request rejected, 12 required RPC unsupported, 14 no
endpoint in the environment, 20 no supervisor, 21 no place.
1 to 8 print `spf_gate: error` and the status, 11 and 12, 20 and 21 print
`spf_gate: source error` and 1 and 2, 10 and 11.
";

/// The text of `--version`.
pub(crate) const VERSION: &str = "spf_gate_watch 0.19.0\n";
