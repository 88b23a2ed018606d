//! Habits in outputs and tags alike.

/// In any output or tag.
pub static ANYWHERE: &str = "\
¦“¦a text stands between plain quotes, `'` or `\"`
¦”¦a text stands between plain quotes, `'` or `\"`
¦„¦a text stands between plain quotes, `'` or `\"`
¦‘¦a text stands between plain quotes, `'` or `\"`
¦’¦a text stands between plain quotes, `'` or `\"`
¦«¦a text stands between plain quotes, `'` or `\"`
¦`¦a text stands between plain quotes, `'` or `\"`
¦\u{a0}¦a no-break space stands here; write a plain one
¦&&¦`&&` is written `and`, in a condition
¦&gt;¦`&gt;` is written `>`
¦&lt;¦`&lt;` is written `<`
¦&quot;¦`&quot;` is written `\"`
¦&#34;¦`&#34;` is written `\"`
¦&#39;¦`&#39;` is written `'`
¦&apos;¦`&apos;` is written `'`
¦&nbsp;¦`&nbsp;` is an escape of HTML; write a plain space
¦&amp;¦`&amp;` is an escape of HTML; in a condition write `and`
¦&.¦`&.` is written `.`
¦&¦`&` isn't known; in a condition write `and`
¦–¦a dash stands here; write the plain sign `-`
¦—¦a dash stands here; write the plain sign `-`
¦−¦a dash stands here; write the plain sign `-`
¦｜¦a wide sign stands here; write the plain `|`
¦，¦a wide sign stands here; write the plain `,`
¦：¦a wide sign stands here; write the plain `:`
¦＝¦a wide sign stands here; write the plain `=`
¦＞¦a wide sign stands here; write the plain `>`
¦＜¦a wide sign stands here; write the plain `<`
¦（¦a wide sign stands here; write the plain `(`
¦）¦a wide sign stands here; write the plain `)`
¦！¦a wide sign stands here; write the plain `!`
¦\u{2002}¦a space of another kind stands here; write a plain one
¦\u{2003}¦a space of another kind stands here; write a plain one
¦\u{2009}¦a space of another kind stands here; write a plain one
¦\u{202f}¦a space of another kind stands here; write a plain one
¦\u{3000}¦a space of another kind stands here; write a plain one
¦\u{200b}¦a space without width stands here; leave it out
¦\u{feff}¦a byte order mark stands here; leave it out
¦??¦`??` isn't known; `| default: 'text'` stands in for a missing value
¦?.¦`?.` is written `.`
¦? }}¦a name has no `?`; ask in a condition, as `{% if a == nil %}`
¦?}}¦a name has no `?`; ask in a condition, as `{% if a == nil %}`
¦?¦a choice is written `{% if a %}b{% else %}c{% endif %}`
¦~¦texts are joined by a filter, as `a | append: 'text'`
¦+¦`+` is written as a filter, `a | plus: b`
¦-¦`-` is written as a filter, `a | minus: b`
¦*¦`*` is written as a filter, `a | times: b`
¦//¦a comment is written `{% comment %}text{% endcomment %}`
¦/*¦a comment is written `{% comment %}text{% endcomment %}`
¦#¦a comment is written `{% comment %}text{% endcomment %}`
¦::¦`::` is written `.`, as `a.b`
¦/¦`/` is written as a filter, `a | divided_by: b`
:¦%¦a text stands between quotes, as `date: '%Y'`
¦%¦`%` is written as a filter, `a | modulo: b`
¦..¦`..` stands in a range in parentheses, as `(1..5)`; a step has one `.`
¦{¦a map can't be written in a template; it comes with the data
¦\\¦a text has no escapes; one with a `'` in it stands between two `\"`
¦$¦a name has no `$`
¦€¦a text stands between quotes, as `'€5'`
¦£¦a text stands between quotes, as `'£5'`
¦@¦a name has no `@`
¦if¦a condition stands in a tag of its own, as `{% if a %}`
¦;¦`;` isn't known; arguments have a `,` between them
¦!¦`!` isn't known; a name has letters, digits, `_` and `-`
";
