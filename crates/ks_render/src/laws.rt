//! What holds of the definitions alone, for callers that have only these.
ghost use Rattle.std.specs.Prelude.{◌≡◌, ℕ, Bool, true, false, List, [], codes, length};
ghost use Rattle.serde_json.specs.Written.{compact_text};
ghost use Rattle.ks_http.specs.Responses.{head_of, content, memory_response};
ghost use Rattle.ks_machine.specs.declared.reply.Reply.{Reply as AnyReply};
ghost use Rattle.ks_machine.specs.declared.reply.Reply.TheVariants.{Refused};
ghost use Rattle.ks_machine.specs.declared.cause.Cause.TheVariants.{Credentials, Memory};
ghost use Rattle.ks_machine.specs.declared.body_out.Row.TheVariants.{AppCred, Secret};
ghost use Rattle.ks_render.specs.Catalog.{services_told};
ghost use Rattle.ks_render.specs.Credentials.{app_cred_made};
ghost use Rattle.ks_render.specs.Errors.{refused_body};
ghost use Rattle.ks_render.specs.Examples.{plain_catalog, plain_cred, plain_login, plain_roles, plain_secret};
ghost use Rattle.ks_render.specs.Rows.{one_body};
ghost use Rattle.ks_render.specs.Tokens.{token_body};
ghost use Rattle.ks_render.specs.Versions.{version_body, versions_body};
ghost use Rattle.ks_render.specs.Answers.{response_of, wire};

/// The version document of a server at `http://127.0.0.1:5000`, byte for byte. The call does nothing, as those
/// below: its contract is the law.
pub fn version_document()
    ensures { compact_text (version_body (codes "http://127.0.0.1:5000"))
        ≡ codes "{\"version\":{\"id\":\"v3.14\",\"links\":[{\"href\":\"http://127.0.0.1:5000/v3/\",\"rel\":\"self\"}],\"media-types\":[{\"base\":\"application/json\",\"type\":\"application/vnd.openstack.identity-v3+json\"}],\"status\":\"stable\",\"updated\":\"2020-04-07T00:00:00Z\"}}" }
{}

/// The list of versions of the same server, byte for byte.
pub fn versions_document()
    ensures { compact_text (versions_body (codes "http://127.0.0.1:5000"))
        ≡ codes "{\"versions\":{\"values\":[{\"id\":\"v3.14\",\"links\":[{\"href\":\"http://127.0.0.1:5000/v3/\",\"rel\":\"self\"}],\"media-types\":[{\"base\":\"application/json\",\"type\":\"application/vnd.openstack.identity-v3+json\"}],\"status\":\"stable\",\"updated\":\"2020-04-07T00:00:00Z\"}]}}" }
{}

/// The body of a login that does not show who it is, byte for byte: 108 bytes.
pub fn unauthorized_document()
    ensures text { compact_text (refused_body Credentials)
        ≡ codes "{\"error\":{\"code\":401,\"message\":\"The request you have made requires authentication.\",\"title\":\"Unauthorized\"}}" }
    ensures size { length (compact_text (refused_body Credentials)) ≡ 108 }
{}

/// The body of an ordinary login, byte for byte: 497 bytes.
pub fn token_document()
    ensures text { compact_text (token_body plain_login)
        ≡ codes "{\"token\":{\"audit_ids\":[\"AAECAwQFBgcICQoLDA0ODw\"],\"catalog\":[],\"expires_at\":\"1985-10-26T09:20:00.000000Z\",\"is_domain\":false,\"issued_at\":\"1985-10-26T08:20:00.000000Z\",\"methods\":[\"password\"],\"project\":{\"domain\":{\"id\":\"default\",\"name\":\"Default\"},\"id\":\"a0000000000000000000000000000001\",\"name\":\"demo\"},\"roles\":[{\"id\":\"b0000000000000000000000000000001\",\"name\":\"admin\"}],\"user\":{\"domain\":{\"id\":\"default\",\"name\":\"Default\"},\"id\":\"00112233445566778899aabbccddeeff\",\"name\":\"ann\",\"password_expires_at\":null}}}" }
    ensures size { length (compact_text (token_body plain_login)) ≡ 497 }
{}

/// The catalog of a token with one service, byte for byte.
pub fn catalog_document()
    ensures { compact_text (services_told plain_catalog)
        ≡ codes "[{\"endpoints\":[{\"id\":\"e0000000000000000000000000000001\",\"interface\":\"public\",\"region\":null,\"region_id\":null,\"url\":\"http://c:8774/a0000000000000000000000000000001\"}],\"id\":\"50000000000000000000000000000001\",\"name\":\"nova\",\"type\":\"compute\"}]" }
{}

/// An application credential, byte for byte: the reply that makes it tells its secret, and each later one all but that.
pub fn app_cred_document()
    ensures made { compact_text (app_cred_made (codes "http://127.0.0.1:5000") plain_cred plain_roles (codes "s3cret"))
        ≡ codes "{\"application_credential\":{\"description\":\"each night\",\"expires_at\":\"1985-10-26T09:20:00.000000Z\",\"id\":\"c0000000000000000000000000000001\",\"links\":{\"self\":\"http://127.0.0.1:5000/v3/users/00112233445566778899aabbccddeeff/application_credentials/c0000000000000000000000000000001\"},\"name\":\"backup\",\"project_id\":\"a0000000000000000000000000000001\",\"roles\":[{\"id\":\"b0000000000000000000000000000001\",\"name\":\"member\"}],\"secret\":\"s3cret\",\"unrestricted\":false,\"user_id\":\"00112233445566778899aabbccddeeff\"}}" }
    ensures shown { compact_text (one_body (codes "http://127.0.0.1:5000") (AppCred plain_cred plain_roles))
        ≡ codes "{\"application_credential\":{\"description\":\"each night\",\"expires_at\":\"1985-10-26T09:20:00.000000Z\",\"id\":\"c0000000000000000000000000000001\",\"links\":{\"self\":\"http://127.0.0.1:5000/v3/users/00112233445566778899aabbccddeeff/application_credentials/c0000000000000000000000000000001\"},\"name\":\"backup\",\"project_id\":\"a0000000000000000000000000000001\",\"roles\":[{\"id\":\"b0000000000000000000000000000001\",\"name\":\"member\"}],\"unrestricted\":false,\"user_id\":\"00112233445566778899aabbccddeeff\"}}" }
{}

/// A secret of one-time codes, byte for byte.
pub fn secret_document()
    ensures { compact_text (one_body (codes "http://127.0.0.1:5000") (Secret plain_secret))
        ≡ codes "{\"credential\":{\"blob\":\"GEZDGNBVGY3TQOJQGEZDGNBVGY3TQOJQ\",\"id\":\"d0000000000000000000000000000001\",\"links\":{\"self\":\"http://127.0.0.1:5000/v3/credentials/d0000000000000000000000000000001\"},\"project_id\":null,\"type\":\"totp\",\"user_id\":\"00112233445566778899aabbccddeeff\"}}" }
{}

/// Want of memory is told in one way, by the reply and where there is no memory for any response.
pub fn memory_ends_the_connection()
    ensures { (url : List ℕ) → wire (Refused Memory) url false true ≡ memory_response }
{}

/// The response to HEAD is the head of the response to the same request with another method, and no more
/// (RFC 9110, section 9.3.2).
pub fn head_has_no_body()
    ensures head { (reply : AnyReply) → (url : List ℕ) → (close : Bool)
        → head_of (response_of reply url true close) ≡ head_of (response_of reply url false close) }
    ensures content { (reply : AnyReply) → (url : List ℕ) → (close : Bool)
        → content (response_of reply url true close) ≡ [] }
{}
