//! Faults of a registry.

use crate::topic::Topic;

/// What the faults of a registry mean.
pub const CONFIG_FAULTS: [Topic; 5] = [
    Topic {
        name: "NotJson",
        text: "\
NotJson: the registry is no JSON text (RFC 8259). Look for a comma too many, a quotation mark too few, and for text that is not UTF-8.

  {\"operator\": \"key\",}     {\"operator\": \"key\"}
",
    },
    Topic {
        name: "BadShape",
        text: "\
BadShape: a member of the registry is missing or of another type, or a grant is none of authorization_code, refresh_token and client_credentials, or an object in the place of a key or a secret has no sha256, or the first owner has a number and another one has none, or the other way round. docs/OPERATING.md has a registry with all members.

  \"owners\": \"ann-key\"      \"owners\": [\"ann-key\"]
",
    },
    Topic {
        name: "BadScope",
        text: "\
BadScope: a scope name of the registry is empty or has a space, a quotation mark or a backslash, or the scope of a client is empty or has a name that scopes lacks.

  \"scopes\": [\"read it\"]    \"scopes\": [\"read_it\"]
",
    },
    Topic {
        name: "BadRedirect",
        text: "\
BadRedirect: a redirect URI of a client is no http or https URL in the URL Standard's own spelling, or has a query, a fragment or more than 2,048 bytes. A host alone has a slash behind it, and a default port is left out.

  \"https://app.example\"    \"https://app.example/\"
  \"https://a.example:443/\" \"https://a.example/\"
",
    },
    Topic {
        name: "Twice",
        text: "\
Twice: two owner keys or numbers, two scope names or the names of two clients are equal. Take one away.

  \"scopes\": [\"read\", \"read\"]           \"scopes\": [\"read\"]
",
    },
];
